//! Functions of Mach and of Linear made by hand, run by the definitions of what they mean: how each
//! of them ends.
//!
//! The crate holds definitions, and laws that are shown by evaluation alone.
#![tactic(auto)]
