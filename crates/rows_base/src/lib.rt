//! What the layers below the compiler say to rows of tables: arithmetic on words and sets of bits, instruction words, bytes
//! of images, words of command lines.
//!
//! `Layer` has the names of the tables, and what their rows are about. The wanted lines of each table were made apart from
//! the program that reads them, `rows_commands`.
#![tactic(auto)]

mod arguments;
mod images;
mod instructions;
mod layer;
mod sets;
mod words;

pub use layer::Layer;
