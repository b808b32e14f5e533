//! What may be chosen in how a text is compiled.
#![tactic(auto)]

mod choices;

pub use choices::{Alloc, Choices, DEFAULTS, Order};
