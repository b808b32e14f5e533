//! Where the functions of a file begin, and in which forms their pieces are laid.
//!
//! Each function is laid out by itself, many at a time; then the functions follow the stub one after
//! the other.
//!
//! Pieces are read where other threads can help; of each function one thread alone reads no more than its
//! sizes (`Laid`).
#![tactic(auto)]

mod places;
mod sizes;

pub use places::{Laid, Places, work_of};
