//! The machine that refuses an allocation service where it is not in need: where such a run is never refused
//! it is the run of the machine, which then asks for allocations only in need.
//!
//! The crate holds definitions and laws alone.
#![tactic(auto)]
