//! The reader of Cmm texts.
#![tactic(auto)]

mod data;
mod items;
mod reader;

pub use reader::read_file;
