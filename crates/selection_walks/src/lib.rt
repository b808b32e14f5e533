//! Where the text has no fault of addresses, no address is live after a frame point of the code that is selected for it.
//!
//! The crate holds laws alone.
//!
//! It is one induction for what is bound, passed and used: the register is followed by its number, and is
//! in one slot of the text's walk, or in none, at each place. An exit costs a step, so that catches go by
//! induction on steps.
#![tactic(auto)]
