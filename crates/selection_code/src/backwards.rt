//! Code that is made from its end.
//!
//! The view is reversed, so that the program follows the definition clause by clause.
ghost use Rattle.std.specs.Prelude.{◌≡◌, [], ◌∷◌, IfOk, OnOk};
ghost use Rattle.selection_rules.specs.Instructions as emit;
ghost use Rattle.mach_ir.specs.declared.mach.Instr.{Instr};

use mach_ir::{Instr, MachOp, Mark, Op, Reg, Seq};
use selection_scope::row::Regs;
use std::alloc::{AllocError, Global};
use std::marker::Model;

/// Code that is made from its end: each instruction is put before the others. Contracts see it as the list of its
/// instructions, in the order in which they run.
#[derive(Drop)]
pub struct Backwards {
    alloc: Global,
    /// The last instruction comes first.
    items: Vec<Instr>,
}

impl Model for Backwards {
    ghost use Rattle.std.specs.Prelude.{List, reverse};
    ghost use Rattle.mach_ir.specs.declared.mach.Instr.{Instr};

    ghost Value = { List Instr };

    ghost view = { λ code. reverse code.items.items };
}

/// These registers, in order.
fn row(alloc: Global, regs: &[Reg]) -> Result<Seq<Reg>, AllocError>
    ensures { IfOk result (λ row. row ≡ regs.now) }
{
    Ok(Seq::from_vec(Vec::from_slice(alloc, regs)?))
}

impl Backwards {
    /// No code. It takes no memory.
    pub fn new(alloc: Global) -> Self
        ensures { result ≡ [] }
    {
        Backwards {
            alloc,
            items: Vec::new(alloc),
        }
    }

    /// Puts an instruction before the others.
    fn put(&mut self, instr: Instr) -> Result<(), AllocError>
        ensures { OnOk result (self.new ≡ instr ∷ self.old) }
    {
        self.items.push(instr)?;
        Ok(())
    }

    /// Puts an operation on these registers before the others. The only error is want of memory.
    pub fn operation(&mut self, op: Op, args: &[Reg], results: &[Reg]) -> Result<(), AllocError>
        ensures { OnOk result (self.new ≡ emit.operation_instr op args.now results.now ∷ self.old) }
    {
        let args = row(self.alloc, args)?;
        let results = row(self.alloc, results)?;
        self.put(Instr {
            op: MachOp::Op(op),
            args,
            results,
        })
    }

    /// Puts an operation on these rows of registers before the others.
    /// The only error is want of memory.
    pub fn on_rows(&mut self, op: Op, args: &Regs, results: &Regs) -> Result<(), AllocError>
        ensures { OnOk result (self.new ≡ emit.operation_instr op args.now results.now ∷ self.old) }
    {
        let args = args.to_seq(self.alloc)?;
        let results = results.to_seq(self.alloc)?;
        self.put(Instr {
            op: MachOp::Op(op),
            args,
            results,
        })
    }

    /// Puts a mark with these registers before the others. The only error is want of memory.
    pub fn mark(&mut self, mark: Mark, args: &[Reg], results: &[Reg]) -> Result<(), AllocError>
        ensures { OnOk result (self.new ≡ record (emit.bare_mark mark) {
          args = args.now;
          results = results.now;
        } ∷ self.old) }
    {
        let args = row(self.alloc, args)?;
        let results = row(self.alloc, results)?;
        self.put(Instr {
            op: MachOp::Mark(mark),
            args,
            results,
        })
    }

    /// Puts a mark without registers before the others. The only error is want of memory.
    pub fn bare(&mut self, mark: Mark) -> Result<(), AllocError>
        ensures { OnOk result (self.new ≡ emit.bare_mark mark ∷ self.old) }
    {
        self.put(Instr {
            op: MachOp::Mark(mark),
            args: Seq::new(self.alloc),
            results: Seq::new(self.alloc),
        })
    }

    /// What the code allocates by.
    pub fn alloc(&self) -> Global {
        self.alloc
    }

    /// The code, from its first instruction on.
    pub fn into_seq(self) -> Seq<Instr>
        ensures { result ≡ self }
    {
        let Backwards {
            alloc: _,
            mut items,
        } = self;
        items.reverse();
        Seq::from_vec(items)
    }
}
