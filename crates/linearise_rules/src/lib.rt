//! What linearisation makes of a Mach function whose registers have places, as one definition, and
//! the laws of it: it does what the Mach function does, and never reads poison where that is not
//! stuck.
//!
//! The crate holds definitions and laws alone.
#![tactic(auto)]
