//! Functions of both languages, put together row by row.
use crate::form::{LinForm, MachForm, name};
use crate::registers::placed;
use bs_words::{List, Name, Ret};
use lin_ir::{Lin, Line, Spot};
use mach_ir::{Instr, Mach, Reg, Seq};
use std::alloc::{AllocError, Global};

/// An instruction: what it does, its operands and its results.
pub(crate) type Row<F> = (F, &'static [Reg], &'static [Reg]);

fn regs(alloc: Global, regs: &[Reg]) -> Result<Seq<Reg>, AllocError> {
    Ok(Seq::from_vec(regs.to_vec(alloc)?))
}

fn spots(alloc: Global, regs: &[Reg]) -> Result<Seq<Spot>, AllocError> {
    let mut spots = Vec::new(alloc);
    for reg in regs {
        spots.push(placed(*reg))?;
    }
    Ok(Seq::from_vec(spots))
}

fn instr(alloc: Global, row: Row<MachForm>) -> Result<Instr, AllocError> {
    let (form, args, results) = row;
    let args = regs(alloc, args)?;
    let results = regs(alloc, results)?;
    let op = form.op(alloc)?;
    Ok(Instr { op, args, results })
}

fn line(alloc: Global, form: LinForm, args: &[Reg], results: &[Reg]) -> Result<Line, AllocError> {
    let args = spots(alloc, args)?;
    let results = spots(alloc, results)?;
    let op = form.op(alloc)?;
    Ok(Line { op, args, results })
}

/// The code of a Mach function.
#[derive(Drop)]
pub(crate) struct MachCode {
    alloc: Global,
    instrs: Vec<Instr>,
}

impl MachCode {
    pub(crate) fn new(alloc: Global) -> Self {
        MachCode {
            alloc,
            instrs: Vec::new(alloc),
        }
    }

    /// Puts an instruction at the end.
    pub(crate) fn put(&mut self, row: Row<MachForm>) -> Result<(), AllocError> {
        let instr = instr(self.alloc, row)?;
        self.instrs.push(instr)?;
        Ok(())
    }

    /// Puts instructions at the end.
    pub(crate) fn put_all(&mut self, rows: &[Row<MachForm>]) -> Result<(), AllocError> {
        for row in rows {
            self.put(*row)?;
        }
        Ok(())
    }

    /// The function with this code.
    fn function(self, name: Name) -> Mach {
        Mach {
            name,
            params: Seq::new(self.alloc),
            result: Ret::Unit,
            labels: 10,
            colours: Seq::new(self.alloc),
            code: Seq::from_vec(self.instrs),
        }
    }

    /// The text of the function with this code.
    pub(crate) fn text(self, called: &str) -> Result<List<u8>, AllocError> {
        let alloc = self.alloc;
        let name = name(alloc, called)?;
        mach_ir::text(alloc, &self.function(name))
    }
}

/// The code of a Linear function.
#[derive(Drop)]
pub(crate) struct LinCode {
    alloc: Global,
    lines: Vec<Line>,
}

impl LinCode {
    pub(crate) fn new(alloc: Global) -> Self {
        LinCode {
            alloc,
            lines: Vec::new(alloc),
        }
    }

    /// Puts an instruction at the end, its registers placed.
    pub(crate) fn put(
        &mut self,
        form: LinForm,
        args: &[Reg],
        results: &[Reg],
    ) -> Result<(), AllocError> {
        let line = line(self.alloc, form, args, results)?;
        self.lines.push(line)?;
        Ok(())
    }

    /// The function with this code.
    fn function(self, name: Name) -> Lin {
        Lin {
            name,
            params: Seq::new(self.alloc),
            result: Ret::Unit,
            slots: 14,
            code: Seq::from_vec(self.lines),
        }
    }

    /// The text of the function with this code.
    pub(crate) fn text(self, called: &str) -> Result<List<u8>, AllocError> {
        let alloc = self.alloc;
        let name = name(alloc, called)?;
        lin_ir::text(alloc, &self.function(name))
    }
}
