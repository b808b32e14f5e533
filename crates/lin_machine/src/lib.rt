//! How the machine holds the state of a Linear function, and what sequences of instructions do to it,
//! wherever the blocks lie and whenever the mover asks.
//!
//! The crate holds definitions and laws alone.
#![tactic(auto)]
