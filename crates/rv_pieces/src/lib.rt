//! The code of one function, whose targets are still named.
//!
//! Emission makes it of a Linear function, and layout makes words of it. An instruction whose
//! numbers are all known is kept as it is; what leads to a label, a function, a symbol or an external
//! call is kept by its name, until it is known where these lie.
#![tactic(auto)]

pub mod piece;

pub use piece::{Piece, Pieces};
