//! Texts that are compiled and run: what is shown of these, by the table that a row is in.
#![tactic(auto)]

pub mod compiled;
pub mod generated;
pub mod jobs;
pub mod plans;
