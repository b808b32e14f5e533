//! A file that the front accepts can be laid out: its names, types, external calls and static data keep the rules
//! of images.
//!
//! The crate holds definitions and laws alone.
#![tactic(auto)]
