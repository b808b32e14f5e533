//! Linear scan of a Mach function: the intervals of its registers, and a place for each register by
//! them (OCaml's `asmcomp/interval.ml`, `asmcomp/linscan.ml`).
//!
//! Registers are taken in the order in which their intervals begin. Each gets the first colour that is
//! not closed to it and that no other holds; where there is none, the one that ends last goes to its slot.
#![tactic(auto)]

mod active;
mod choice;
mod closed;
mod interval_table;
mod order;
mod places;
mod ranges;
mod scanning;

pub use interval_table::intervals;
pub use scanning::scan;
