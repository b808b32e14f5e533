//! The front of the compiler: a text is read, its types and symbols and the addresses at its frame points are
//! checked, and its file comes of it, or the fault that is reported.
#![tactic(auto)]

mod text;

pub use text::front;
