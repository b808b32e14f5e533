//! What fuel does to a run of a text: each node pays a unit, no call gives units back, and how deep calls may nest
//! does not matter past the units that are left.
//!
//! The crate holds definitions and laws alone. The evaluator and the laws that a compiler rests on cite them.
#![tactic(auto)]
