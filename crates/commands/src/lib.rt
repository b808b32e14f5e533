//! The commands. `check`, `list` and `soak` each write to their sinks and answer the status. Of `compile`
//! there is the image or why it has none, of `run` its outcome on out or why not: the top call writes
//! the image, gives these the status, and writes the line on err (`tell`, `tell_refusal`, `tell_image`).
//!
//! `compile`, `check` and `list` read a Cmm text, `run` an image, `soak` nothing. How a call ends is `Ends`.
//!
//! A whole output is made before it is written, so that after want of memory out is empty. The outcome of
//! `run` alone is written as it comes.
#![tactic(auto)]

pub mod check;
mod compile;
mod kept;
mod last;
mod line;
pub mod list;
mod run;
pub mod soak;
mod text;

pub use compile::{Refusal, compile_source};
pub use line::{
    NO_MEMORY, READ_FAULT, USAGE, WRITE_FAULT, WRITTEN, tell, tell_image, tell_refusal,
};
pub use run::{RunRefusal, run_source};
pub use text_commands::{
    CallRefusal, Gate, OpenGate, Refusal as TextRefusal, call_of, report_of_run,
};
