//! The limits on sizes in a file.
#![tactic(auto)]

mod limits;

pub use limits::{LONGEST_TEXT, limit_fault};
