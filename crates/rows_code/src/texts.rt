//! The Mach function that selection gives for each function of texts.
//!
//! A text begins with a row `# HEADING`. Shown is each heading, and below it the functions of its
//! text. The wanted lines were not written by this program: they are from a second selector, which
//! writes the code of an expression from its beginning on and numbers registers from the tree
//! alone.
use crate::counted::count_functions;
use anyhow::{Result, bail};
use bs_fault::FrontError;
use cmm_front::front;
use mach_ir::text;
use selection::select;
use std::alloc::Global;
use std::io::Write;

/// The text so far.
#[derive(Drop)]
pub(crate) struct Texts {
    alloc: Global,
    source: Vec<u8>,
}

/// The Mach functions of a text, as they print, or that it has a fault.
fn selected(alloc: Global, source: &[u8]) -> Result<Vec<u8>> {
    let mut page = Vec::new(alloc);
    match front(alloc, source) {
        Ok(checked) => {
            let count = count_functions(checked.typed().file().items.as_slice());
            for function in 0..count {
                let mach = select(alloc, &checked, function)?;
                page.extend_from_slice(text(alloc, &mach)?.as_slice())?;
            }
        }
        Err(FrontError::Fault(_)) => page.extend_from_slice(b"a fault\n")?,
        Err(FrontError::OutOfMemory) => bail!("out of memory"),
    }
    Ok(page)
}

impl Texts {
    /// No row has been read.
    pub(crate) fn new(alloc: Global) -> Texts {
        Texts {
            alloc,
            source: Vec::new(alloc),
        }
    }

    /// Puts the functions of the text that comes to its end. Where no row has been read, it is the
    /// empty text, which has none.
    pub(crate) fn end<W: Write>(&mut self, out: &mut W) -> Result<()> {
        out.write_all(selected(self.alloc, self.source.as_slice())?.as_slice())?;
        self.source.clear();
        Ok(())
    }

    /// Reads a row. A heading is put after the functions of the text before it.
    pub(crate) fn take<W: Write>(&mut self, out: &mut W, row: &str) -> Result<()> {
        if row.starts_with("# ") {
            self.end(out)?;
            out.write_all(row.as_bytes())?;
            out.write_all(b"\n")?;
        } else {
            self.source.extend_from_slice(row.as_bytes())?;
            self.source.push(b'\n')?;
        }
        Ok(())
    }
}
