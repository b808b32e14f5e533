//! The lines in which rows write instructions of Mach and of Linear.
#![tactic(auto)]

mod forms;
mod line;
mod words;

pub use line::{Parts, apart, registers, spots, words_of};
pub use words::{given, value};
