//! The lines of a Linear function that have no use, and the function without them: lines that no walk
//! reaches, jumps to where control comes anyway, and moves of a location to itself that nothing reads.
//! OCaml drops code after a jump as it linearises (`asmcomp/linearize.ml`).
//!
//! What is reached and what is read is searched over the walks of the function, in which each operand and
//! result counts as a val. Labels and the entries of handlers have no use of their own, and stay.
#![tactic(auto)]

pub mod forms;
mod leaving;
mod use_of_lines;
mod vals;

pub use leaving::{leave_out, no_move_goes, none_set};
pub use use_of_lines::{useless_lines, useless_lines_left};
