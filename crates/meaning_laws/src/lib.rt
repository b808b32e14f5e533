//! The meaning of a text once more as an interaction, and the laws of it that a compiler rests on.
//!
//! The crate holds definitions and laws alone.
#![tactic(auto)]
