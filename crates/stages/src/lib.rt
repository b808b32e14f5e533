//! The stages of the compiler.
//!
//! They are a crate of their own: the words of the command line name them, and are below the compiler.
#![tactic(auto)]

mod stage;

pub use stage::Stage;
