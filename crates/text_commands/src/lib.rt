//! What the commands do with a Cmm text: to the bytes of its image, to the text of a stage of the compiler, and to
//! what is reported of a run of one of its functions.
#![tactic(auto)]

mod arguments;
mod call;
mod check;
mod compile;
mod entry;
mod lines;
mod list;
mod ready;
mod run;
mod trial;

pub use call::{CallRefusal, FileCall, call_of};
pub use check::{CheckRefusal, check_text};
pub use compile::{Refusal, compile_text};
pub use file_compile::{Gate, OpenGate};
pub use list::list_text;
pub use run::{outcome_of_run, report_of_run};
pub use trial::{Trial, trial_of};
