//! What a Cmm text means: the run of one of its functions.
//!
//! The crate holds definitions alone, in `specs/`: `Run` has the run, over names and trees, with no
//! register, slot or address of a block in it. An evaluator for them comes with the command `check`.
#![tactic(auto)]
