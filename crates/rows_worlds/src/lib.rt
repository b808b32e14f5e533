//! What is round a function of Mach or of Linear as it runs: the memory, which parts of new blocks are written, the
//! pushed tries, and what calls do; and what an operation of both languages does to it.
//!
//! This is a second reading of what these languages mean, by a machine that changes, for the rows alone.
#![tactic(auto)]

mod ends;
mod world;

pub use ends::{Asked, Call, Doing, End, Holding, Next};
pub use world::{World, destroys, is_frame_point};
