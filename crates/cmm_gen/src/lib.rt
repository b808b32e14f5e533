//! The generator of texts. Each text that it draws is one of a file, and no run of it is improper.
#![tactic(auto)]

mod texts;

pub use texts::generate;
