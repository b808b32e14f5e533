//! Linear: one function as labelled instructions over typed locations.
//!
//! Linear is what linearisation makes of a Mach function whose registers have places, as `Linear`
//! is in OCaml's `asmcomp`. The definitions of what a function does when unnamed pointers are lost
//! at frame points, of what is live there and of exact frame descriptors are in `specs`.
#![tactic(auto)]

pub mod descr;
mod frame;
pub mod lin;
mod lines;
mod places;

pub use descr::Descr;
pub use lin::{Flow, Lin, LinOp, Line, Spot};
pub use lines::text;
pub use mach_ir::{External, Label, Seq};
pub use places::same_loc;
