//! When the mover asks during a run and where it puts the blocks of the heap, as the program's own
//! schedules say: never, before each instruction, or by the words of a seed.
#![tactic(auto)]

mod asks;
mod plans;

pub use asks::SeededAsks;
pub use plans::plan_word;
