//! Reloading (OCaml's `asmcomp/reloadgen.ml`): after a colouring, each operand or result that is in a
//! slot, of an operation other than a move, a spill or a reload, gets a fresh register, which is reloaded
//! before or spilled after it, and another round of colouring is asked for.
#![tactic(auto)]

mod places;
mod registers;
mod reloading;

pub use reloading::reload;
