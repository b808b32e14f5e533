//! Laws of Linear functions that frame tables rest on.
//!
//! The flow graph of a Linear function, over places with the traps that are pushed there, has
//! exactly the walks of its definition. What is live at a frame point is what is live before one
//! place of that graph, and exact descriptors are unique.
//!
//! The crate holds definitions and laws alone.
#![tactic(auto)]

pub mod position;

pub use position::Position;
