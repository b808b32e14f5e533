//! What selection knows where a node of a tree is, before the node's code is made.
//!
//! The names and labels in scope with their registers, how many numbers of registers and labels a node takes, where its
//! value goes, which operands wait, and the registers of a row of operands.
#![tactic(auto)]

pub mod light;
pub mod outline;
pub mod place;
pub mod row;
pub mod scope;
pub mod seats;
pub mod width;
