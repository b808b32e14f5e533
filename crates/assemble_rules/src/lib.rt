//! That what is laid out is an image: its tables keep the rules of images, where its sections keep their limits.
//!
//! The crate holds laws alone.
#![tactic(auto)]
