//! What the evaluator keeps of a run: activations, the world, and frames, which say what is still to be done. What each node of a tree has, and what
//! a value meets.
#![tactic(auto)]

pub mod around;
pub mod bind;
pub mod calls;
pub mod cases;
pub mod frame;
pub mod given;
pub mod group;
pub mod here;
pub mod layout;
pub mod light;
pub mod operands;
pub mod outcome;
pub mod tests;
pub mod world;
