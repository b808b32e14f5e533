//! The words that the program is called with: which command they are, and with which values.
//!
//! The first word is the command. The others come in any order: options, each one word
//! `--name=value` and at most once, and where the command has one a plain word, which does not begin
//! with `-`. The command line is stricter than usual: there is no help and no version, no `--`, and
//! no option in two words.
//!
//! Words are tested before `clap` reads them, since its own rules are wider and its refusals name other
//! causes. Of words of the form it refuses none.
#![tactic(auto)]

mod command;
mod form;
mod parser;
mod read;
mod values;

pub use choices::{Alloc, Choices, Order};
pub use command::{CheckWords, Command, Moves, RunWords, WordsError};
pub use read::read_words;
pub use rv_machine::Arg;
pub use stages::Stage;
