//! The memory in which the run of an image begins has the static data of its file: each cell its value, and where
//! the cells lie.
//!
//! The crate holds definitions and laws alone.
#![tactic(auto)]
