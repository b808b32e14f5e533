//! Moves that are meant to happen at once, as a sequence of moves one after the other.
//!
//! The arguments of a call, and of a jump to a block with parameters, are such moves: each target is to
//! hold what its source held before any of them. A move whose target is still to be read must wait, and
//! a cycle of moves needs a spare place, which is the scratch register t0. The order is that of a walk
//! from a move to the moves that read its target, as in CompCert's `Parallelmove`.
//!
//! Nothing calls it yet: moves into the places of arguments are one after the other from selection on, and
//! colouring sees them as such.
#![tactic(auto)]

pub mod moves;
mod pending;
mod resolving;
mod walk;

pub use moves::Move;
pub use resolving::resolve;
