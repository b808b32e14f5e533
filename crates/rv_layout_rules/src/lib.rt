//! The words of pieces of code, and the image of a file whose functions are pieces.
//!
//! The crate holds definitions and laws alone, and the type of the forms in which pieces are laid.
#![tactic(auto)]

pub mod form;

pub use form::Form;
