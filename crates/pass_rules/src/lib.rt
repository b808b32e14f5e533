//! What every pass over Mach answers for besides what a function does: how many words and frame points its
//! code has, how tries are round its places, and how it ends.
//!
//! The crate holds definitions alone.
#![tactic(auto)]
