//! What the compiler makes of one function of a text, and what is known of it, whatever passes made it.
//!
//! The crate holds definitions alone.
#![tactic(auto)]
