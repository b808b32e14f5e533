//! Laws of runs of the machine: a hart that is sound stays so, a run is that of its steps, one that is over
//! stays over, and no call is forgotten.
//!
//! The crate holds definitions and laws alone.
//!
//! It is below the services, so that what is known of words, regions, blocks and the start is stated once.
#![tactic(auto)]
