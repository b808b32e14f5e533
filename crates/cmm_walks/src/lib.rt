//! Addresses at frame points.
//!
//! The table of a function (`walk_tables`) has an address that is live at a frame point exactly where a walk
//! of the function has. Labels that spread through the table once find the first such address, by its use,
//! then its frame point, then its binding. `check_addresses` reports it.
#![tactic(auto)]

mod check;
mod checked;
mod first;
mod groups;
mod labels;
mod limits;
mod seeds;

pub use checked::{Checked, check_addresses};
