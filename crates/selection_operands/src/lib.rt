//! Selection of the forms that take operands: accesses of memory, new blocks, calls, exits and raises.
//!
//! Each form is handed what selects an expression one level deeper.
#![tactic(auto)]

pub mod leaving;
pub mod memory;
pub mod operands;
