//! The evaluator: the run of a function of a file, as `cmm_meaning` defines it.
//!
//! It keeps its activations on a stack of its own, so that memory alone bounds how deep they nest.
#![tactic(auto)]

mod bind;
mod calls;
mod cases;
mod evaluation;
mod fill;
mod leaf;
mod machine;
mod rows;

pub use eval_frames::layout::Layout;
pub use eval_frames::outcome::{Eval, Outcome};
pub use evaluation::{eval, fits_entry};
