//! Linearisation: the lines of a Mach function whose registers have places, in one pass over its text
//! (OCaml's `asmcomp/linearize.ml`).
//!
//! Operations stay as they are, each register becoming its place. Structures become labels, jumps and
//! branches, tries become pushed and popped traps. The slots that occur are numbered from 0.
#![tactic(auto)]

mod backward;
mod copies;
mod lines;
mod lowering;
mod slots;
mod spots;
mod tests;

pub use lowering::lower;
pub use slots::has_room;
pub use spots::bare;
pub use tests::opposite_test;
