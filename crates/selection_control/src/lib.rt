//! Selection of operators, choices and sequences, and of the forms in which names or labels are visible in a part.
//!
//! Each form is handed what selects an expression one level deeper.
//!
//! These forms and those of `selection_operands` are crates apart from the recursion, so that no crate
//! takes more than eight minutes.
#![tactic(auto)]

pub mod choices;
pub mod scoping;
