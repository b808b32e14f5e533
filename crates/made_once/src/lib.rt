//! What the compiler makes of a function of a text is one list of pieces: each pass is the value of one
//! definition, or what it promises determines what it gives.
//!
//! The crate holds laws alone.
#![tactic(auto)]
