//! What is shown of the answers of `cmmc`, by the table that a row is in.
#![tactic(auto)]

pub mod devices;
pub mod faults;
pub mod limits;
pub mod listings;
mod shown;
mod texts;
