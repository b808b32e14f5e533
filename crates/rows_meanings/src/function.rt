//! Functions that are put together row by row.

use crate::outcome::put_outcome;
use anyhow::{Result, bail};
use bs_words::{Comp, Loc, Name, Ret, Value};
use lin_ir::{Lin, Line};
use mach_ir::{Instr, Mach, Reg, Seq};
use rows_machines::{lin_machine, mach_machine};
use rows_reading::{apart, registers, spots};
use rows_worlds::World;
use std::alloc::{AllocError, Global};

/// The most steps of a run.
const FUEL: u32 = 1_000;

/// The instruction of Mach that a text is.
fn instr(alloc: Global, text: &str) -> Result<Instr> {
    match apart(alloc, text)?.instr()? {
        Some(instr) => Ok(instr),
        None => bail!("no instruction: {text}"),
    }
}

/// The line of Linear that a text is.
fn line(alloc: Global, text: &str) -> Result<Line> {
    match apart(alloc, text)?.line()? {
        Some(line) => Ok(line),
        None => bail!("no instruction: {text}"),
    }
}

fn locs(alloc: Global, regs: &[Reg]) -> Result<Vec<Loc>, AllocError> {
    let mut locs = Vec::new(alloc);
    for reg in regs {
        locs.push(reg.loc)?;
    }
    Ok(locs)
}

/// The function that is read.
#[derive(Drop)]
pub(crate) struct Function {
    /// Its name in the table.
    pub name: String,
    is_mach: bool,
    params: Vec<Reg>,
    colours: Vec<Reg>,
    instrs: Vec<Instr>,
    lines: Vec<Line>,
    /// What the frame points of a Linear function name, in the order of the text.
    named: Vec<Vec<Loc>>,
}

impl Function {
    /// A function without a name and without instructions.
    pub fn new(alloc: Global) -> Self {
        Function {
            name: String::new(alloc),
            is_mach: true,
            params: Vec::new(alloc),
            colours: Vec::new(alloc),
            instrs: Vec::new(alloc),
            lines: Vec::new(alloc),
            named: Vec::new(alloc),
        }
    }

    /// A function without instructions: its name, its parameters, and its colours after a semicolon. The errors are a word that
    /// is no register, and want of memory.
    pub fn begin(alloc: Global, is_mach: bool, head: &str) -> Result<Self> {
        let mut function = Function::new(alloc);
        function.is_mach = is_mach;
        function.set_head(alloc, head)?;
        Ok(function)
    }

    fn set_head(&mut self, alloc: Global, head: &str) -> Result<()> {
        let (name, regs) = match head.split_once(" ") {
            Some(parts) => parts,
            None => (head, ""),
        };
        self.name = String::from_str(alloc, name)?;
        self.set_registers(alloc, regs)
    }

    fn set_registers(&mut self, alloc: Global, regs: &str) -> Result<()> {
        let (params, colours) = match regs.split_once(";") {
            Some(parts) => parts,
            None => (regs, ""),
        };
        self.params = registers(alloc, params)?;
        self.colours = registers(alloc, colours)?;
        Ok(())
    }

    /// Adds what the next frame point of a Linear function names. The errors are a word that is no register, and want of memory.
    pub fn add_names(&mut self, alloc: Global, text: &str) -> Result<()> {
        let regs = registers(alloc, text)?;
        self.named.push(locs(alloc, regs.as_slice())?)?;
        Ok(())
    }

    /// Adds an instruction of the function, or a line of a Linear one. The errors are a text that is none, and want of memory.
    pub fn add(&mut self, alloc: Global, text: &str) -> Result<()> {
        if self.is_mach {
            self.add_instr(alloc, text)
        } else {
            self.add_line(alloc, text)
        }
    }

    fn add_instr(&mut self, alloc: Global, text: &str) -> Result<()> {
        let instr = instr(alloc, text)?;
        self.instrs.push(instr)?;
        Ok(())
    }

    fn add_line(&mut self, alloc: Global, text: &str) -> Result<()> {
        let line = line(alloc, text)?;
        self.lines.push(line)?;
        Ok(())
    }

    fn called(&self, alloc: Global) -> Result<Name> {
        Ok(Name::from_vec(self.name.as_str().as_bytes().to_vec(alloc)?))
    }

    fn mach(&self, alloc: Global) -> Result<Mach> {
        Ok(Mach {
            name: self.called(alloc)?,
            params: Seq::from_vec(self.params.clone()?),
            result: Ret::Comp(Comp::Int),
            labels: 64,
            colours: Seq::from_vec(self.colours.clone()?),
            code: Seq::from_vec(self.instrs.clone()?),
        })
    }

    fn lin(&self, alloc: Global) -> Result<Lin> {
        Ok(Lin {
            name: self.called(alloc)?,
            params: spots(alloc, self.params.as_slice())?,
            result: Ret::Comp(Comp::Int),
            slots: 8,
            code: Seq::from_vec(self.lines.clone()?),
        })
    }

    /// Runs it, and says what came. The only error is want of memory.
    pub fn run(&self, world: World, args: &[Value], said: &mut String) -> Result<()> {
        if self.is_mach {
            self.run_mach(world, args, said)
        } else {
            self.run_lin(world, args, said)
        }
    }

    fn run_mach(&self, world: World, args: &[Value], said: &mut String) -> Result<()> {
        let function = self.mach(world.alloc)?;
        run_mach(&function, world, args, said)
    }

    fn run_lin(&self, world: World, args: &[Value], said: &mut String) -> Result<()> {
        let function = self.lin(world.alloc)?;
        let machine = lin_machine::Machine::new(&function, self.named.as_slice(), world);
        run_lin(machine, args, said)
    }
}

fn run_mach(function: &Mach, world: World, args: &[Value], said: &mut String) -> Result<()> {
    let mut machine = mach_machine::Machine::new(function, world)?;
    let end = machine.run(args, FUEL)?;
    put_outcome(&machine.world, end, said)
}

fn run_lin(mut machine: lin_machine::Machine, args: &[Value], said: &mut String) -> Result<()> {
    let end = machine.run(args, FUEL)?;
    put_outcome(&machine.world, end, said)
}
