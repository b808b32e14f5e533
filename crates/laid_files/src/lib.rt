//! The functions of a file that the front accepts, once they are compiled, can be laid out, and each has an
//! instruction in the image.
//!
//! The crate holds laws alone.
#![tactic(auto)]
