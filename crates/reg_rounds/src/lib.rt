//! Register allocation: a place for each register of a Mach function (OCaml's `asmcomp/asmgen.ml`).
//!
//! Choosing places, by colouring or by linear scan, and reloading turn in rounds until no operation has an operand or a result in a slot. Where
//! fifty rounds do not end, the function as it was before the first gets a slot for each register whose
//! place is open.
#![tactic(auto)]

mod allocation;
mod choosing;
mod copies;
mod slots;

pub use allocation::{Allocated, allocate, allocate_by, allocate_linear};
