//! The instructions that selection makes, and what the machine has for the operands of an operator.
//!
//! Code is made from its end: what follows an instruction is there before the instruction is put before it.
#![tactic(auto)]

pub mod backwards;
pub mod calls;
pub mod emit;
pub mod shape;
