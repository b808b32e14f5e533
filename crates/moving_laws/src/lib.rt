//! Laws of the services that move the blocks: values under a placement of the blocks, the frames of the
//! functions that have not returned, and what a service restores of both, whatever the plan.
//!
//! The crate holds definitions and laws alone.
#![tactic(auto)]
