//! The values and the memory of a run of a Cmm text, as code.
//!
//! The definitions are those of `bs_words`: which values fit a type, what each operator gives or why it is
//! improper, and what is loaded, stored and allocated.
#![tactic(auto)]

mod access;
mod comparisons;
mod fit;
mod memory;
mod operators;

pub use fit::{fits, misfit};
pub use memory::Memory;
pub use operators::{apply, condition_of, word_in};
