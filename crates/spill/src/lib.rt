//! Spilling: a register that lives over a call gets a slot (OCaml's `asmcomp/spill.ml`).
//!
//! A register whose place is open is lost from each call that it lives over to its next read, where it
//! is reloaded: so once for the reads that follow one another, and late. A write is stored, right after
//! it, where it comes to such a read. Both are found by flow analysis.
#![tactic(auto)]

mod copies;
mod lists;
mod lost;
mod spilling;
mod tables;
mod wanted;

pub use spilling::spill;
