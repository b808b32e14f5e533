//! How the part of a Linear line lies in an image: its pieces in their forms, what the function's names
//! stand for, and what is known of the line itself.
//!
//! The crate holds definitions and laws alone.
#![tactic(auto)]
