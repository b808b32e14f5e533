//! The grammar of Cmm texts: what comes one after the other, the tree that it gives, and the laws of
//! reading it from left to right. The code is what the words of the grammar are.
#![tactic(auto)]

pub mod word;

pub use word::{ChunkWord, DataWord, Head, Pair, Triple, Width};
