//! The rows of Mach functions, which are put together row by row.
//!
//! A row `colours REGISTERS` has the colours of the functions that follow, in the next tables too.
//! A function is a row `mach NAME RESULT PARAMETERS`, an instruction a row (`rows_reading` has the
//! form), and an empty row. A row `# ..` says what a function is about. Any other row is an error.
ghost use Rattle.std.specs.Prelude.{length};
ghost use Rattle.mach_ir.specs.Sizes.{HasRoom};
ghost use Rattle.mach_tests.specs.Room.{wide};

use crate::{lines, webs};
use anyhow::{Result, bail, ensure};
use bs_words::Name;
use mach_ir::page::Page;
use mach_ir::{Instr, Mach, Reg, Seq};
use mach_tests::has_room;
use rows_reading::{apart, given, registers};
use std::alloc::Global;
use std::mem;

/// What is made of the functions of a table.
#[derive(Clone, Copy)]
pub enum Passes {
    /// What is live in them, and the split functions (`webs`).
    Splits,
    /// The spilled functions, and these split (`webs`).
    Spills,
    /// The lowered functions, and these tidied (`lines`).
    Lines,
}

impl Passes {
    /// Puts what is made of a function for which the passes have room.
    fn put(self, alloc: Global, page: &mut Page, mach: Mach) -> Result<()>
        requires { HasRoom (wide (length mach.params)) mach }
    {
        match self {
            Passes::Splits => webs::put_split(alloc, page, mach),
            Passes::Spills => webs::put_spilled(alloc, page, mach),
            Passes::Lines => lines::put(alloc, page, &mach),
        }
    }

    /// Puts what is made of a function. The error is one for which the passes have no room.
    fn put_tested(self, alloc: Global, page: &mut Page, mach: Mach) -> Result<()> {
        if has_room(&mach) {
            self.put(alloc, page, mach)
        } else {
            bail!("no room for what passes make")
        }
    }
}

/// How many numbers of labels each function has.
const LABELS: u32 = 10;

/// The rows so far: the function that is read has this head and these instructions.
#[derive(Drop)]
pub(crate) struct MachRows {
    alloc: Global,
    colours: Vec<Reg>,
    head: String,
    instrs: Vec<Instr>,
}

/// The function with a head, colours and instructions.
fn function(alloc: Global, head: &str, colours: &[Reg], instrs: Vec<Instr>) -> Result<Mach> {
    let Some((name, rest)) = head.split_once(' ') else {
        bail!("no result: {head}");
    };
    let (result, params) = match rest.split_once(' ') {
        Some(parts) => parts,
        None => (rest, ""),
    };
    let Some(result) = given(result) else {
        bail!("no result: {head}");
    };
    Ok(Mach {
        name: Name::from_vec(name.as_bytes().to_vec(alloc)?),
        params: Seq::from_vec(registers(alloc, params)?),
        result,
        labels: LABELS,
        colours: Seq::from_vec(colours.to_vec(alloc)?),
        code: Seq::from_vec(instrs),
    })
}

impl MachRows {
    /// No row has been read.
    pub(crate) fn new(alloc: Global) -> MachRows {
        MachRows {
            alloc,
            colours: Vec::new(alloc),
            head: String::new(alloc),
            instrs: Vec::new(alloc),
        }
    }

    /// Whether each function has come to its end.
    pub(crate) fn is_done(&self) -> bool {
        self.head.is_empty() && self.instrs.is_empty()
    }

    /// Puts what is made of the function that comes to its end.
    fn end(&mut self, page: &mut Page, passes: Passes) -> Result<()> {
        let head = mem::replace(&mut self.head, String::new(self.alloc));
        let instrs = mem::replace(&mut self.instrs, Vec::new(self.alloc));
        let mach = function(self.alloc, head.as_str(), self.colours.as_slice(), instrs)?;
        passes.put_tested(self.alloc, page, mach)
    }

    /// Reads an instruction.
    fn add(&mut self, line: &str) -> Result<()> {
        ensure!(!self.head.is_empty(), "no function before: {line}");
        match apart(self.alloc, line)?.instr()? {
            Some(instr) => {
                self.instrs.push(instr)?;
                Ok(())
            }
            None => bail!("no instruction: {line}"),
        }
    }

    /// Reads a row. What is made of a function goes to the page.
    pub(crate) fn take(&mut self, page: &mut Page, passes: Passes, line: &str) -> Result<()> {
        if line.is_empty() {
            return self.end(page, passes);
        }
        match line.split_once(' ') {
            Some(("#", _)) => {}
            Some(("colours", regs)) => {
                ensure!(self.is_done(), "no end before: {line}");
                self.colours = registers(self.alloc, regs)?;
            }
            Some(("mach", head)) => {
                ensure!(self.is_done(), "no end before: {line}");
                self.head = String::from_str(self.alloc, head)?;
            }
            _ => self.add(line)?,
        }
        Ok(())
    }
}
