//! Emission: from a Linear function and its frame descriptors to pieces of code, whose targets are
//! still named, as `Emit` makes it of `Linear` in OCaml's `asmcomp`.
//!
//! What the pieces are is defined in `rv_emit_rules`. Each function here puts the pieces of one thing.
#![tactic(auto)]

pub mod branches;
pub mod calls;
pub mod constants;
pub mod emission;
pub mod form;
pub mod frames;
pub mod instructions;
pub mod memory;
pub mod operators;
pub mod output;
pub mod slots;
pub mod traps;
pub mod units;

pub use emission::emit;
