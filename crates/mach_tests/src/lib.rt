//! Tests that run: whether a Mach function has room for what passes make of it.
//!
//! Functions that are made by hand are to pass them before passes are called on them. Of functions that
//! selection makes it is proved.
#![tactic(auto)]

mod room;

pub use room::has_room;
