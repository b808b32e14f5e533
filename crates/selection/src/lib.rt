//! Selection: the Mach function of a function of a checked file.
//!
//! The code of a function is made from its end: what follows an expression is there before the code of the expression
//! is put before it. Each node's registers and labels have numbers from one that is handed in, and its type is the one
//! that the checked tree holds.
#![tactic(auto)]

mod forms;
mod function;

pub use function::{select, select_function};
