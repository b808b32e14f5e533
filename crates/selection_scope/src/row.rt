//! Registers in a row.
ghost use Rattle.std.specs.Prelude.{◌≡◌, [], ◌∷◌, ◌++◌, IfOk, OnOk};
ghost use Rattle.selection_scope.specs.Row.{regs_in};

use bs_words::{Comp, Loc};
use mach_ir::{Reg, Seq};
use smallvec::SmallVec;
use std::alloc::{AllocError, Global};
use std::marker::Model;

/// The most operands of a call: a callee and sixteen arguments.
const MOST: usize = 17;

/// A register in a row. A place of the row that holds none yet has a blank one.
#[derive(Clone, Copy)]
pub struct InRow {
    /// The register.
    pub reg: Reg,
}

impl Default for InRow {
    fn default() -> Self {
        InRow {
            reg: Reg {
                number: 0,
                comp: Comp::Int,
                loc: Loc::Unset,
                origin: 0,
            },
        }
    }
}

/// Registers in a row: the operands of an instruction while they are selected, or parameters. As many as a call has
/// operands are kept in the value, and take no memory. Contracts see the list of the registers.
/// There are 17 places, for a callee and 16 arguments. A place wraps a blank of its own, since the list
/// wants one and a register has none.
#[derive(Drop)]
pub struct Regs {
    items: SmallVec<InRow, MOST>,
}

impl Model for Regs {
    ghost use Rattle.std.specs.Prelude.{List};
    ghost use Rattle.mach_ir.specs.declared.reg.Reg.{Reg};
    ghost use Rattle.selection_scope.specs.Row.{regs_in};

    ghost Value = { List Reg };

    ghost view = { λ regs. regs_in regs.items.items };
}

impl Regs {
    /// No register.
    pub fn new(alloc: Global) -> Self
        ensures { result ≡ [] }
    {
        Regs {
            items: SmallVec::new(alloc),
        }
    }

    /// Puts a register after the others. The only error is want of memory.
    pub fn push(&mut self, reg: Reg) -> Result<(), AllocError>
        ensures { OnOk result (self.new ≡ self.old ++ reg ∷ []) }
    {
        self.items.push(InRow { reg })?;
        Ok(())
    }

    /// The registers, in order.
    pub fn as_slice(&self) -> &[InRow]
        ensures { regs_in result.now ≡ self.now }
    {
        self.items.as_slice()
    }

    /// The registers as the list of an instruction. The only error is want of memory.
    pub fn to_seq(&self, alloc: Global) -> Result<Seq<Reg>, AllocError>
        ensures { IfOk result (λ seq. seq ≡ self.now) }
    {
        let mut regs = Vec::new(alloc);
        let mut rest = self.as_slice();
        while let [first, others @ ..] = rest {
            regs.push(first.reg)?;
            rest = others;
        }
        Ok(Seq::from_vec(regs))
    }
}
