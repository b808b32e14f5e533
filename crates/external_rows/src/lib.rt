//! The external calls of a typed file, each row once, numbered in the order of their first use.
#![tactic(auto)]

mod rows;
mod walk;

pub use rows::ExternalRows;
pub use walk::external_rows;
