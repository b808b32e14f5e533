//! What is done to the lines of a Linear function after linearisation: jumps go at once where others
//! lead, loops are turned round, and lines that have no use are left out: those that no walk reaches,
//! jumps to where control comes anyway, and moves of a location to itself after which it is not read.
//!
//! Whichever lines go first, one function is left when none without use is left.
//!
//! Each such change keeps what the function does where nothing is lost at frame points, and makes
//! nothing live that was not. So with exact names no poison is read by what is left.
//!
//! The crate holds definitions and laws alone.
#![tactic(auto)]
