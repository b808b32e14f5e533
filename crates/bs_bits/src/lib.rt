//! Finite sets of numbers below a size, by words of 64 bits.
#![tactic(auto)]

mod bits;
mod words;

pub use bits::Bits;
