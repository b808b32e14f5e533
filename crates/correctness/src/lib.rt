//! What it means that an image is correct for a file.
//!
//! The crate holds definitions alone. It is above the meaning of texts and the machine, which know
//! nothing of each other: `Correct` in `specs/` is all that ties the two together.
#![tactic(auto)]
