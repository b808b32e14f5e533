//! Integer operators, comparisons that give 1 or 0 among them.
ghost use Rattle.std.specs.Prelude.{[], ◌∷◌, IfOk};
ghost use Rattle.rv_emit_rules.specs.Operators.{opposed, is_none, is_some, compared, operated, operated_far, compared_with, operated_with};
ghost use Rattle.rv_emit.specs.Outputs.{AddsPieces};

use crate::output::Output;
use bs_words::{CmpOp, IntOp};
use rv_isa::{AluImmOp, AluOp, Register, ShiftOp};
use std::alloc::AllocError;

impl Output {
    fn opposed(&mut self, to: Register) -> Result<(), AllocError>
        ensures { IfOk result (λ _. AddsPieces self.old self.new (opposed to ∷ [])) }
    {
        self.with_immediate(AluImmOp::Xori, to, to, 1)
    }

    fn is_none(&mut self, to: Register) -> Result<(), AllocError>
        ensures { IfOk result (λ _. AddsPieces self.old self.new (is_none to ∷ [])) }
    {
        self.with_immediate(AluImmOp::Sltiu, to, to, 1)
    }

    fn is_some(&mut self, to: Register) -> Result<(), AllocError>
        ensures { IfOk result (λ _. AddsPieces self.old self.new (is_some to ∷ [])) }
    {
        self.operation(AluOp::Sltu, to, Register::Zero, to)
    }

    /// `less`: slt or sltu.
    fn compared(
        &mut self,
        less: AluOp,
        op: CmpOp,
        to: Register,
        left: Register,
        right: Register,
    ) -> Result<(), AllocError>
        ensures { IfOk result (λ _. AddsPieces self.old self.new (compared less op to left right)) }
    {
        match op {
            CmpOp::Eq => {
                self.operation(AluOp::Xor, to, left, right)?;
                self.is_none(to)
            }
            CmpOp::Ne => {
                self.operation(AluOp::Xor, to, left, right)?;
                self.is_some(to)
            }
            CmpOp::Lt => self.operation(less, to, left, right),
            CmpOp::Ge => {
                self.operation(less, to, left, right)?;
                self.opposed(to)
            }
            CmpOp::Gt => self.operation(less, to, right, left),
            CmpOp::Le => {
                self.operation(less, to, right, left)?;
                self.opposed(to)
            }
        }
    }

    /// An operator on two registers. The only error is want of memory.
    pub fn operated(
        &mut self,
        op: IntOp,
        to: Register,
        left: Register,
        right: Register,
    ) -> Result<(), AllocError>
        ensures { IfOk result (λ _. AddsPieces self.old self.new (operated op to left right)) }
    {
        match op {
            IntOp::Add => self.operation(AluOp::Add, to, left, right),
            IntOp::AddV => self.operation(AluOp::Add, to, left, right),
            IntOp::AddA => self.operation(AluOp::Add, to, left, right),
            IntOp::Sub => self.operation(AluOp::Sub, to, left, right),
            IntOp::Mul => self.operation(AluOp::Mul, to, left, right),
            IntOp::Mulh => self.operation(AluOp::Mulh, to, left, right),
            IntOp::Div => self.operation(AluOp::Div, to, left, right),
            IntOp::Mod => self.operation(AluOp::Rem, to, left, right),
            IntOp::And => self.operation(AluOp::And, to, left, right),
            IntOp::Or => self.operation(AluOp::Or, to, left, right),
            IntOp::Xor => self.operation(AluOp::Xor, to, left, right),
            IntOp::Shl => self.operation(AluOp::Sll, to, left, right),
            IntOp::Shr => self.operation(AluOp::Srl, to, left, right),
            IntOp::Sar => self.operation(AluOp::Sra, to, left, right),
            IntOp::Cmp(compare) => self.compared(AluOp::Slt, compare, to, left, right),
            IntOp::CmpU(compare) => self.compared(AluOp::Sltu, compare, to, left, right),
        }
    }

    fn operated_far(
        &mut self,
        op: IntOp,
        to: Register,
        left: Register,
        word: u64,
    ) -> Result<(), AllocError>
        ensures { IfOk result (λ _. AddsPieces self.old self.new (operated_far op to left word)) }
    {
        self.constant(Register::T2, word)?;
        self.operated(op, to, left, Register::T2)
    }

    /// `less`: slti or sltiu. `far`: slt or sltu.
    fn compared_with(
        &mut self,
        less: AluImmOp,
        far: AluOp,
        op: CmpOp,
        to: Register,
        left: Register,
        word: u64,
    ) -> Result<(), AllocError>
        ensures { IfOk result (λ _.
            AddsPieces self.old self.new (compared_with less far op to left word)) }
    {
        match op {
            CmpOp::Eq => {
                self.with_immediate(AluImmOp::Xori, to, left, word)?;
                self.is_none(to)
            }
            CmpOp::Ne => {
                self.with_immediate(AluImmOp::Xori, to, left, word)?;
                self.is_some(to)
            }
            CmpOp::Lt => self.with_immediate(less, to, left, word),
            CmpOp::Ge => {
                self.with_immediate(less, to, left, word)?;
                self.opposed(to)
            }
            CmpOp::Gt => {
                self.constant(Register::T2, word)?;
                self.compared(far, CmpOp::Gt, to, left, Register::T2)
            }
            CmpOp::Le => {
                self.constant(Register::T2, word)?;
                self.compared(far, CmpOp::Le, to, left, Register::T2)
            }
        }
    }

    /// An operator on a register and a constant. The only error is want of memory.
    pub fn operated_with(
        &mut self,
        op: IntOp,
        to: Register,
        left: Register,
        word: u64,
    ) -> Result<(), AllocError>
        ensures { IfOk result (λ _. AddsPieces self.old self.new (operated_with op to left word)) }
    {
        match op {
            IntOp::Add => self.addi(to, left, word),
            IntOp::AddV => self.addi(to, left, word),
            IntOp::AddA => self.addi(to, left, word),
            IntOp::Sub => self.addi(to, left, 4096 - word % 4096),
            IntOp::And => self.with_immediate(AluImmOp::Andi, to, left, word),
            IntOp::Or => self.with_immediate(AluImmOp::Ori, to, left, word),
            IntOp::Xor => self.with_immediate(AluImmOp::Xori, to, left, word),
            IntOp::Shl => self.shift(ShiftOp::Slli, to, left, word),
            IntOp::Shr => self.shift(ShiftOp::Srli, to, left, word),
            IntOp::Sar => self.shift(ShiftOp::Srai, to, left, word),
            IntOp::Cmp(compare) => {
                self.compared_with(AluImmOp::Slti, AluOp::Slt, compare, to, left, word)
            }
            IntOp::CmpU(compare) => {
                self.compared_with(AluImmOp::Sltiu, AluOp::Sltu, compare, to, left, word)
            }
            IntOp::Mul => self.operated_far(op, to, left, word),
            IntOp::Mulh => self.operated_far(op, to, left, word),
            IntOp::Div => self.operated_far(op, to, left, word),
            IntOp::Mod => self.operated_far(op, to, left, word),
        }
    }
}
