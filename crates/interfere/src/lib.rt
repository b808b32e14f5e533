//! The interference graph of a Mach function (OCaml's `asmcomp/interf.ml`): which of its registers must
//! are apart, since one is written while the other is live.
//!
//! What is live where an instruction goes on is joined with each register that it writes, what it
//! destroys among them, in a square of bits over the numbers of registers. A move's source and target
//! stay apart only by other instructions. The rows of the square are then read out as lists.
#![tactic(auto)]

mod interfering;
mod joining;
mod matrix;
mod members;
mod moves;
mod partners;
mod registers;
mod tables;
mod uses;

pub use interfering::graph;
