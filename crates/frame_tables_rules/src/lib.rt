//! Locations that frame descriptors name, by the frame point where each is.
//!
//! Exact descriptors name exactly what is live after their frame points.
//!
//! The crate holds definitions and laws alone.
#![tactic(auto)]
