//! What selection, passes and the layout make of texts, functions and pieces, for the rows of tables.
//!
//! `Code` has the names of the tables, and what their rows are about. The wanted lines of each table were made apart from
//! the program that reads them, `rows_commands`.
#![tactic(auto)]

mod code;
mod counted;
mod described;
mod functions;
mod laid;
mod laid_rows;
mod large;
mod large_pieces;
mod lines;
mod mach_rows;
mod numbered;
mod pieces;
mod tables;
mod texts;
mod webs;

pub use code::Code;
pub use tables::Tables;
