//! What rows leave open, and what is shown of each.
use crate::subject::Subject;
use anyhow::Result;
use rows_code::Tables;
use rows_lines::{Table, Top};
use rows_meanings::Meanings;
use std::alloc::Global;
use std::io::Write;
use std::thread::Threads;

/// What the rows have left open so far.
#[derive(Drop)]
pub(crate) struct Left {
    /// The bytes of the last image that a row of `rows_base` gave.
    image: Vec<u8>,
    code: Tables,
    meanings: Meanings,
}

impl Left {
    /// No row has been read.
    pub(crate) fn new(alloc: Global) -> Left {
        Left {
            image: Vec::new(alloc),
            code: Tables::new(alloc),
            meanings: Meanings::new(alloc),
        }
    }

    /// Ends the table that is read. What its last rows leave to be shown is put.
    pub(crate) fn end<W: Write>(&mut self, out: &mut W) -> Result<()> {
        self.code.end(out)
    }

    /// Reads a row. What is shown of it is put.
    pub(crate) fn take<R: Threads + Sync, T: Top, W: Write>(
        &mut self,
        rt: &R,
        table: &mut Table<'_, R, T>,
        out: &mut W,
        subject: Subject,
        row: &str,
    ) -> Result<()> {
        match subject {
            Subject::Answers(answers) => {
                let said = answers.said_to(table, &mut self.image, row)?;
                out.write_all(said.as_slice())?;
            }
            Subject::Code(code) => self.code.add(rt, out, code, row)?,
            Subject::Meanings => {
                let said = self.meanings.said_to(row)?;
                out.write_all(said.as_slice())?;
            }
        }
        Ok(())
    }
}
