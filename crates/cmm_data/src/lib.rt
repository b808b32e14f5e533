//! Where static data lies, what its cells hold, and what is wrong with it.
//!
//! Static data begins at 0x10000000 with a built-in list of 8 zero bytes, whose symbol is
//! `caml_bound_error`. The lists of a file follow in order, each at the next multiple of 8.
#![tactic(auto)]

mod data_map;
mod fault;
mod filling;
mod place;
mod size;
mod symbols;

pub use data_map::{DataCells, DataMap, DataSymbol};
pub use fault::data_fault;
pub use place::place_data;
pub use symbols::SymbolTable;
