//! What emission makes of a Linear function: its pieces of code, as one definition, and the laws of it.
//!
//! The crate holds definitions and laws alone.
#![tactic(auto)]
