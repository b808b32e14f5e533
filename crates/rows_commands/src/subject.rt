//! What the tables are about.
use crate::answers::Answers;
use anyhow::Result;
use rows_code::Code;

/// What a table is about, which says how its rows are read and what is shown of them.
#[derive(Clone, Copy)]
pub(crate) enum Subject {
    /// What `cmmc` or a layer below it answers to each row.
    Answers(Answers),
    /// What selection, passes and the layout make of texts, functions and pieces (`rows_code`).
    Code(Code),
    /// How functions of Mach and of Linear that are made by hand run, by a second reading of what these languages mean
    /// (`rows_meanings`).
    Meanings,
}

impl Subject {
    /// The subject with this name.
    pub(crate) fn of(name: &str) -> Result<Subject> {
        if name == "meanings" {
            return Ok(Subject::Meanings);
        }
        match Code::of(name) {
            Some(code) => Ok(Subject::Code(code)),
            None => Ok(Subject::Answers(Answers::of(name)?)),
        }
    }
}
