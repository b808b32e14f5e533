//! Traps, raises and bound tests.
ghost use Rattle.std.specs.Prelude.{[], ◌∷◌, IfOk};
ghost use Rattle.rv_emit_rules.specs.Instructions.{load_piece};
ghost use Rattle.rv_emit_rules.specs.Traps.{raise_words, push_part, pop_part, enter_part, raise_bound_error, check_part};
ghost use Rattle.rv_emit.specs.Outputs.{AddsPieces};

use crate::branches::right_register;
use crate::output::Output;
use crate::slots::{first, register_of};
use bs_words::{DATA_START, Loc};
use lin_ir::Spot;
use mach_ir::{Label, Right};
use rv_isa::{Condition, LoadWidth, Register, StoreWidth};
use rv_pieces::Piece;
use std::alloc::AllocError;

/// The upper 20 bits of the address of the data's first symbol, whose lower 12 are none.
const DATA_UPPER: u64 = DATA_START / 4096;

impl Output {
    /// To the handler of the innermost trap, which is popped. The only error is want of memory.
    pub fn raise_words(&mut self) -> Result<(), AllocError>
        ensures { IfOk result (λ _. AddsPieces self.old self.new raise_words) }
    {
        self.mv(Register::Sp, Register::S1)?;
        self.load(LoadWidth::Ld, Register::T1, Register::Sp, 0)?;
        self.earlier_trap()?;
        self.addi(Register::Sp, Register::Sp, 16)?;
        self.goes_to(Register::T1, 0)
    }

    /// Pushes a trap: the handler of the label, and the trap before.
    /// The only error is want of memory.
    pub fn push_part(&mut self, label: Label) -> Result<(), AllocError>
        ensures { IfOk result (λ _. AddsPieces self.old self.new (push_part label)) }
    {
        self.put(Piece::LabelAddress {
            to: Register::T1,
            label,
        })?;
        self.addi(Register::Sp, Register::Sp, 0xFFFF_FFFF_FFFF_FFF0)?;
        self.store(StoreWidth::Sd, Register::T1, Register::Sp, 0)?;
        self.store(StoreWidth::Sd, Register::S1, Register::Sp, 8)?;
        self.mv(Register::S1, Register::Sp)
    }

    /// The trap pointer becomes what it was before the innermost trap, at which sp points.
    fn earlier_trap(&mut self) -> Result<(), AllocError>
        ensures { IfOk result (λ _.
            AddsPieces self.old self.new (load_piece LoadWidth.Ld Register.S1 Register.Sp 8 ∷ [])) }
    {
        self.load(LoadWidth::Ld, Register::S1, Register::Sp, 8)
    }

    /// Pops the last trap: the one before is the last again. The only error is want of memory.
    pub fn pop_part(&mut self) -> Result<(), AllocError>
        ensures { IfOk result (λ _. AddsPieces self.old self.new pop_part) }
    {
        self.earlier_trap()?;
        self.addi(Register::Sp, Register::Sp, 16)
    }

    /// The entry of a handler: the raised value is in a0. The only error is want of memory.
    pub fn enter_part(&mut self, traps: u32, results: &[Spot]) -> Result<(), AllocError>
        ensures { IfOk result (λ _. AddsPieces self.old self.new (enter_part traps results.now)) }
    {
        self.moved(traps, Loc::Machine(Register::A0 as u8), first(results))
    }

    fn raise_bound_error(&mut self) -> Result<(), AllocError>
        ensures { IfOk result (λ _. AddsPieces self.old self.new raise_bound_error) }
    {
        self.lui(Register::A0, DATA_UPPER)?;
        self.raise_words()
    }

    /// Raises where the index is not below the bound. The only error is want of memory.
    pub fn check_part(&mut self, traps: u32, right: Right, args: &[Spot]) -> Result<(), AllocError>
        ensures { IfOk result (λ _. AddsPieces self.old self.new (check_part traps right args.now)) }
    {
        let bound = register_of(Register::T1, first(args));
        self.fetched(traps, Register::T1, first(args))?;
        self.right_words(traps, right, args)?;
        self.skip(Condition::Bltu, right_register(right, args), bound, 28)?;
        self.raise_bound_error()
    }
}
