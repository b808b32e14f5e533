//! Tests that run: whether a Linear function is such as frame descriptors need.
//!
//! Its lines and slots have to be so few that numbers count them, its locations have to be those that
//! registers get, each of its places has to be found by one number of pushed traps, and its frame,
//! traps and lines have to fit what a descriptor can say.
#![tactic(auto)]

mod countable;
mod located;
mod pushed;

pub use countable::is_countable;
pub use located::is_located;
pub use pushed::{has_one_depth, is_within};
