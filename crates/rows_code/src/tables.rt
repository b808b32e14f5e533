//! The tables, row by row.
use crate::code::Code;
use crate::laid_rows::LaidRows;
use crate::large;
use crate::mach_rows::MachRows;
use crate::texts::Texts;
use anyhow::{Result, ensure};
use mach_ir::page::Page;
use std::alloc::Global;
use std::io::Write;
use std::thread::Threads;

/// What the rows of a table have left open so far.
#[derive(Drop)]
pub struct Tables {
    alloc: Global,
    texts: Texts,
    laid: LaidRows,
    mach: MachRows,
}

impl Tables {
    /// No row has been read.
    pub fn new(alloc: Global) -> Tables {
        Tables {
            alloc,
            texts: Texts::new(alloc),
            laid: LaidRows::new(alloc),
            mach: MachRows::new(alloc),
        }
    }

    /// Ends the table that is read. What its last rows leave to be shown is put.
    ///
    /// # Errors
    ///
    /// A function that has no end, or want of memory.
    pub fn end<W: Write>(&mut self, out: &mut W) -> Result<()> {
        self.texts.end(out)?;
        ensure!(self.laid.is_done(), "the last function has no end");
        ensure!(self.mach.is_done(), "the last function has no end");
        Ok(())
    }

    /// Reads a row. What is shown of it is put.
    ///
    /// # Errors
    ///
    /// A row that is none of its table, or want of memory.
    pub fn add<R: Threads + Sync, W: Write>(
        &mut self,
        rt: &R,
        out: &mut W,
        code: Code,
        row: &str,
    ) -> Result<()> {
        match code {
            Code::Selection => self.texts.take(out, row),
            Code::Large => large::put(rt, self.alloc, out, row),
            Code::Laid(laid) => self.laid.take(out, laid, row),
            Code::Passes(passes) => {
                let mut page = Page::new(self.alloc);
                self.mach.take(&mut page, passes, row)?;
                out.write_all(page.bytes.as_slice())?;
                Ok(())
            }
        }
    }
}
