//! A function called with each number below a count, in threads that fork and join by halves of the work.
//!
//! It knows nothing of what is computed: what the calls give is in the order of their numbers, whatever
//! order they ended in and however many threads there were.
//!
//! The contract is over `post` of the function that is called, so that halves in the wrong order are
//! refused for every function. That threads are started no clause can say; a row does.
#![tactic(auto)]

mod cut;
mod halves;

pub use halves::map_in_halves;
