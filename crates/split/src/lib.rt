//! Splitting: each web of a register that has no place yet gets a number of its own (OCaml's
//! `asmcomp/split.ml`, for every write in place of reloads alone).
//!
//! The writes that come to each place are found by flow analysis. Where an operand is read, those of its
//! writes that come there are joined. Joined ones have one number, and it is the operand's.
#![tactic(auto)]

mod joins;
mod names;
mod reach;
mod rename;
mod splitting;
mod tables;
mod writes;

pub use splitting::split;
