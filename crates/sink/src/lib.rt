//! Sinking: a register that one call alone finds written since the last is moved to itself at the begin of
//! the straight run to it.
//!
//! Such a move is the one write that spilling then stores. So what is stored for a call is stored shortly
//! before it, and not at each assignment: not in each turn of a loop, and not in a function that returns
//! before its first call. Which registers are moved is found by flow analysis.
#![tactic(auto)]

mod chosen;
mod graphs;
mod mixed;
mod moves;
mod registers;
mod runs;
mod sights;
mod sinking;
mod solved;

pub use sinking::sink;
