//! Constants of loops, made first: a wide constant in a loop before the first call is made once, at the
//! entry of the function.
//!
//! Loops are known by the text: from a label to the last exit that leads back to it. So one table, of the
//! last exit to each label, and one scan, which keeps the greatest end of the loops whose labels have been
//! passed, give the loops round each place. OCaml's `asmcomp` moves no code out of loops.
#![tactic(auto)]

mod calls;
mod choosing;
mod constants;
mod hoisting;
mod loops;
mod writes;

pub use hoisting::hoist;
