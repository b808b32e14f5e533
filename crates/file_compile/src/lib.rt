//! A checked file compiled: each function through all passes to its pieces of code, by fork and join, and all of
//! them to the image of the file (OCaml's `asmcomp/asmgen.ml`).
#![tactic(auto)]

mod files;
mod gate;
mod listing;
mod passes;
mod rows;

pub use choices::{Alloc, Choices, DEFAULTS, Order};
pub use files::{compile, compile_by, stage, stage_by};
pub use gate::{Gate, OpenGate};
pub use listing::function_text;
pub use passes::function_pieces;
pub use rows::layout;
pub use stages::Stage;
