//! Linearisation as a whole: the lines of a Mach function whose registers have places, made tidy.
#![tactic(auto)]

mod whole;

pub use whole::linear;
