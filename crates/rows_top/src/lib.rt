//! What the tables of rows take from the top call: the call itself, and runs of texts by their meaning.
//!
//! It is apart from the program of the tables, which is checked and built over all crates, and takes long enough without
//! it.
#![tactic(auto)]

pub mod called;
pub mod evaluated;
