//! Labels, jumps, branches on tests, and switches.
ghost use Rattle.std.specs.Prelude.{◌≡◌, [], ◌∷◌, map, IfOk};
ghost use Rattle.rv_emit_rules.specs.Tests.{constant_register, constant_words, right_register, right_words, signed_branch};
ghost use Rattle.rv_emit_rules.specs.Tests.{unsigned_branch, test_words, test_branch, branch_part, value_words};
ghost use Rattle.rv_emit_rules.specs.Tests.{tests_in_turn, table_of_jumps, switch_part};
ghost use Rattle.rv_emit.specs.Outputs.{AddsPieces};

use crate::output::Output;
use crate::slots::{first, register_of, second};
use bs_words::{CmpOp, Loc};
use lin_ir::Spot;
use mach_ir::{Label, Right, Test};
use rv_isa::{Condition, Register, ShiftOp};
use rv_pieces::Piece;
use std::alloc::AllocError;

/// The register in which a right operand is read.
pub fn right_register(right: Right, args: &[Spot]) -> Register
    ensures { result ≡ right_register right args.now }
{
    match right {
        Right::Register => register_of(Register::T2, second(args)),
        Right::Constant(word) => constant_register(word),
    }
}

fn constant_register(word: u64) -> Register
    ensures { result ≡ constant_register word }
{
    if word == 0 {
        Register::Zero
    } else {
        Register::T2
    }
}

impl Output {
    fn constant_words(&mut self, word: u64) -> Result<(), AllocError>
        ensures { IfOk result (λ _. AddsPieces self.old self.new (constant_words word)) }
    {
        if word == 0 {
            return Ok(());
        }
        self.constant(Register::T2, word)
    }

    /// Brings a right operand into its register. The only error is want of memory.
    pub fn right_words(&mut self, traps: u32, right: Right, args: &[Spot]) -> Result<(), AllocError>
        ensures { IfOk result (λ _. AddsPieces self.old self.new (right_words traps right args.now)) }
    {
        match right {
            Right::Register => self.fetched(traps, Register::T2, second(args)),
            Right::Constant(word) => self.constant_words(word),
        }
    }

    fn branch(
        &mut self,
        condition: Condition,
        left: Register,
        right: Register,
        label: Label,
    ) -> Result<(), AllocError>
        ensures { IfOk result (λ _.
            AddsPieces self.old self.new (Piece.Branch condition left right label ∷ [])) }
    {
        self.put(Piece::Branch {
            condition,
            left,
            right,
            label,
        })
    }

    fn signed_branch(
        &mut self,
        op: CmpOp,
        left: Register,
        right: Register,
        label: Label,
    ) -> Result<(), AllocError>
        ensures { IfOk result (λ _.
            AddsPieces self.old self.new (signed_branch op left right label ∷ [])) }
    {
        match op {
            CmpOp::Eq => self.branch(Condition::Beq, left, right, label),
            CmpOp::Ne => self.branch(Condition::Bne, left, right, label),
            CmpOp::Lt => self.branch(Condition::Blt, left, right, label),
            CmpOp::Le => self.branch(Condition::Bge, right, left, label),
            CmpOp::Gt => self.branch(Condition::Blt, right, left, label),
            CmpOp::Ge => self.branch(Condition::Bge, left, right, label),
        }
    }

    fn unsigned_branch(
        &mut self,
        op: CmpOp,
        left: Register,
        right: Register,
        label: Label,
    ) -> Result<(), AllocError>
        ensures { IfOk result (λ _.
            AddsPieces self.old self.new (unsigned_branch op left right label ∷ [])) }
    {
        match op {
            CmpOp::Eq => self.branch(Condition::Beq, left, right, label),
            CmpOp::Ne => self.branch(Condition::Bne, left, right, label),
            CmpOp::Lt => self.branch(Condition::Bltu, left, right, label),
            CmpOp::Le => self.branch(Condition::Bgeu, right, left, label),
            CmpOp::Gt => self.branch(Condition::Bltu, right, left, label),
            CmpOp::Ge => self.branch(Condition::Bgeu, left, right, label),
        }
    }

    fn test_words(&mut self, traps: u32, test: Test, args: &[Spot]) -> Result<(), AllocError>
        ensures { IfOk result (λ _. AddsPieces self.old self.new (test_words traps test args.now)) }
    {
        match test {
            Test::Holds => Ok(()),
            Test::Fails => Ok(()),
            Test::Signed(_, right) => self.right_words(traps, right, args),
            Test::Unsigned(_, right) => self.right_words(traps, right, args),
        }
    }

    fn test_branch(
        &mut self,
        test: Test,
        args: &[Spot],
        left: Register,
        label: Label,
    ) -> Result<(), AllocError>
        ensures { IfOk result (λ _.
            AddsPieces self.old self.new (test_branch test args.now left label ∷ [])) }
    {
        match test {
            Test::Holds => self.branch(Condition::Bne, left, Register::Zero, label),
            Test::Fails => self.branch(Condition::Beq, left, Register::Zero, label),
            Test::Signed(op, right) => {
                self.signed_branch(op, left, right_register(right, args), label)
            }
            Test::Unsigned(op, right) => {
                self.unsigned_branch(op, left, right_register(right, args), label)
            }
        }
    }

    /// To the label where the test holds. The only error is want of memory.
    pub fn branch_part(
        &mut self,
        traps: u32,
        test: Test,
        label: Label,
        args: &[Spot],
    ) -> Result<(), AllocError>
        ensures { IfOk result (λ _.
            AddsPieces self.old self.new (branch_part traps test label args.now)) }
    {
        let left = first(args);
        self.fetched(traps, Register::T1, left)?;
        self.test_words(traps, test, args)?;
        self.test_branch(test, args, register_of(Register::T1, left), label)
    }

    /// What a location has becomes the value of t1. The only error is want of memory.
    pub fn value_words(&mut self, traps: u32, loc: Loc) -> Result<(), AllocError>
        ensures { IfOk result (λ _. AddsPieces self.old self.new (value_words traps loc)) }
    {
        match loc {
            Loc::Slot(_) => self.fetched(traps, Register::T1, loc),
            Loc::Machine(_) => self.mv(Register::T1, register_of(Register::T1, loc)),
            Loc::Unset => self.mv(Register::T1, Register::Zero),
        }
    }

    /// T1 is tested against 0, and lowered, until the last label is left.
    fn tests_in_turn(&mut self, labels: &[Label]) -> Result<(), AllocError>
        ensures { IfOk result (λ _. AddsPieces self.old self.new (tests_in_turn labels.now)) }
    {
        match labels {
            [] => Ok(()),
            [label] => self.put(Piece::Jump(*label)),
            [label, others @ ..] => {
                self.branch(Condition::Beq, Register::T1, Register::Zero, *label)?;
                self.addi(Register::T1, Register::T1, 0xFFFF_FFFF_FFFF_FFFF)?;
                self.tests_in_turn(others)
            }
        }
    }

    fn rows(&mut self, labels: &[Label]) -> Result<(), AllocError>
        ensures { IfOk result (λ _. AddsPieces self.old self.new (map Piece.Row labels.now)) }
    {
        for label in labels {
            self.put(Piece::Row(*label))?;
        }
        Ok(())
    }

    fn table_of_jumps(&mut self, labels: &[Label]) -> Result<(), AllocError>
        ensures { IfOk result (λ _. AddsPieces self.old self.new (table_of_jumps labels.now)) }
    {
        self.shift(ShiftOp::Slli, Register::T1, Register::T1, 3)?;
        self.auipc(Register::T2)?;
        self.add(Register::T2, Register::T2, Register::T1)?;
        self.goes_to(Register::T2, 12)?;
        self.rows(labels)
    }

    /// To the label of an index. The only error is want of memory.
    pub fn switch_part(
        &mut self,
        traps: u32,
        labels: &[Label],
        args: &[Spot],
    ) -> Result<(), AllocError>
        ensures { IfOk result (λ _.
            AddsPieces self.old self.new (switch_part traps labels.now args.now)) }
    {
        self.value_words(traps, first(args))?;
        if labels.len() <= 4 {
            self.tests_in_turn(labels)
        } else {
            self.table_of_jumps(labels)
        }
    }
}
