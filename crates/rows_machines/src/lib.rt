//! Functions of Mach and of Linear, run by a second reading of what these languages mean, for the rows alone.
#![tactic(auto)]

pub mod lin_machine;
pub mod mach_machine;
