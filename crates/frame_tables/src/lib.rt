//! Frame descriptors: what is live as val after each frame point of a Linear function, exactly.
//!
//! A collector that moves heap blocks rewrites exactly the locations that descriptors name. So one
//! that is missing leaves an old address there, and one too many may be no pointer. OCaml's pass is
//! in `Emit` (`record_frame`), over the sets that `Liveness` leaves at each instruction.
//!
//! A raise goes to the handler of the innermost trap that is pushed, which depends on the walk. So
//! what is live is asked of places together with the traps that are pushed there: those that walks
//! from the entry come to are searched first, and then those that come after a frame point to which
//! no walk comes. The first search says also how many traps are pushed before each line.
#![tactic(auto)]

mod after;
mod entries;
mod pushed;
mod tables;

pub use pushed::pushed_traps;
pub use tables::descriptors;
