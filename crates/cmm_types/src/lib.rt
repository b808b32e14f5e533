//! The types and symbols of Cmm files.
#![tactic(auto)]

mod bound;
mod branches;
mod checker;
mod gathering;
mod group;
mod labels;
mod light;
mod light_address;
mod names;
mod node;
mod operations;
mod role;
mod scopes;
mod seen;
mod symbols;
mod typed;

pub use bound::{comp_of_argument, is_address, is_mutable, result_of, type_bound};
pub use light_address::{NamesInScope, is_light_address};
pub use symbols::{Definition, Symbols};
pub use typed::{Typed, check_types};
