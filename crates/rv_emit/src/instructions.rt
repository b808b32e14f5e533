//! Instructions over registers.
ghost use Rattle.std.specs.Prelude.{◌≡◌, ◌<◌, [], ◌∷◌, IfOk};
ghost use Rattle.rv_emit_rules.specs.Instructions.{low_12, with_immediate, addi, mv, alu_operation, add, shift_piece};
ghost use Rattle.rv_emit_rules.specs.Instructions.{lui, addiw, auipc, load_piece, store_piece, skip, goes_to_address, calls_at, ecall};
ghost use Rattle.rv_emit.specs.Outputs.{AddsPieces};

use crate::output::Output;
use rv_isa::{AluImmOp, AluOp, Condition, Instr, LoadWidth, Register, ShiftOp, StoreWidth};
use std::alloc::AllocError;

/// The lowest 12 bits of a word.
fn low_12(word: u64) -> u16
    ensures exact { result ≡ low_12 word }
    ensures below { result < 4096 }
{
    (word % 4096) as u16
}

impl Output {
    /// An operation of a register and a constant, of which the low 12 bits are taken.
    /// The only error is want of memory.
    pub fn with_immediate(
        &mut self,
        op: AluImmOp,
        to: Register,
        from: Register,
        word: u64,
    ) -> Result<(), AllocError>
        ensures { IfOk result (λ _. AddsPieces self.old self.new (with_immediate op to from word ∷ [])) }
    {
        self.known(Instr::OpImm {
            op,
            rd: to.number(),
            rs1: from.number(),
            imm: low_12(word),
        })
    }

    /// A register and a constant, of which the low 12 bits are taken as a signed number: their sum.
    /// The only error is want of memory.
    pub fn addi(&mut self, to: Register, from: Register, word: u64) -> Result<(), AllocError>
        ensures { IfOk result (λ _. AddsPieces self.old self.new (addi to from word ∷ [])) }
    {
        self.with_immediate(AluImmOp::Addi, to, from, word)
    }

    /// The value of one register in another. The only error is want of memory.
    pub fn mv(&mut self, to: Register, from: Register) -> Result<(), AllocError>
        ensures { IfOk result (λ _. AddsPieces self.old self.new (mv to from ∷ [])) }
    {
        self.addi(to, from, 0)
    }

    /// An operation of two registers. The only error is want of memory.
    pub fn operation(
        &mut self,
        op: AluOp,
        to: Register,
        left: Register,
        right: Register,
    ) -> Result<(), AllocError>
        ensures { IfOk result (λ _. AddsPieces self.old self.new (alu_operation op to left right ∷ [])) }
    {
        self.known(Instr::Op {
            op,
            rd: to.number(),
            rs1: left.number(),
            rs2: right.number(),
        })
    }

    /// The sum of two registers. The only error is want of memory.
    pub fn add(&mut self, to: Register, left: Register, right: Register) -> Result<(), AllocError>
        ensures { IfOk result (λ _. AddsPieces self.old self.new (add to left right ∷ [])) }
    {
        self.operation(AluOp::Add, to, left, right)
    }

    /// A register shifted by so many bits, modulo 64. The only error is want of memory.
    pub fn shift(
        &mut self,
        op: ShiftOp,
        to: Register,
        from: Register,
        amount: u64,
    ) -> Result<(), AllocError>
        ensures { IfOk result (λ _. AddsPieces self.old self.new (shift_piece op to from amount ∷ [])) }
    {
        self.known(Instr::Shift {
            op,
            rd: to.number(),
            rs1: from.number(),
            amount: (amount % 64) as u8,
        })
    }

    /// `upper`: the upper bits; the field takes the lowest 20 of them.
    /// The only error is want of memory.
    pub fn lui(&mut self, to: Register, upper: u64) -> Result<(), AllocError>
        ensures { IfOk result (λ _. AddsPieces self.old self.new (lui to upper ∷ [])) }
    {
        self.known(Instr::Lui {
            rd: to.number(),
            imm: (upper % 1048576) as u32,
        })
    }

    /// As `addi`, on words of 32 bits, whose sum is extended by its sign.
    /// The only error is want of memory.
    pub fn addiw(&mut self, to: Register, from: Register, word: u64) -> Result<(), AllocError>
        ensures { IfOk result (λ _. AddsPieces self.old self.new (addiw to from word ∷ [])) }
    {
        self.known(Instr::Addiw {
            rd: to.number(),
            rs1: from.number(),
            imm: low_12(word),
        })
    }

    /// The instruction's own address. The only error is want of memory.
    pub fn auipc(&mut self, to: Register) -> Result<(), AllocError>
        ensures { IfOk result (λ _. AddsPieces self.old self.new (auipc to ∷ [])) }
    {
        self.known(Instr::Auipc {
            rd: to.number(),
            imm: 0,
        })
    }

    /// The bytes from so many after the address in a register, extended as the width says.
    /// The only error is want of memory.
    pub fn load(
        &mut self,
        width: LoadWidth,
        to: Register,
        address: Register,
        offset: u64,
    ) -> Result<(), AllocError>
        ensures { IfOk result (λ _. AddsPieces self.old self.new (load_piece width to address offset ∷ [])) }
    {
        self.known(Instr::Load {
            width,
            rd: to.number(),
            rs1: address.number(),
            imm: low_12(offset),
        })
    }

    /// The low bytes of a register, to so many after the address in another.
    /// The only error is want of memory.
    pub fn store(
        &mut self,
        width: StoreWidth,
        from: Register,
        address: Register,
        offset: u64,
    ) -> Result<(), AllocError>
        ensures { IfOk result (λ _. AddsPieces self.old self.new (store_piece width from address offset ∷ [])) }
    {
        self.known(Instr::Store {
            width,
            rs1: address.number(),
            rs2: from.number(),
            imm: low_12(offset),
        })
    }

    /// Goes so many bytes further than the branch where the condition holds.
    /// The only error is want of memory.
    pub fn skip(
        &mut self,
        condition: Condition,
        left: Register,
        right: Register,
        bytes: u64,
    ) -> Result<(), AllocError>
        ensures { IfOk result (λ _. AddsPieces self.old self.new (skip condition left right bytes ∷ [])) }
    {
        self.known(Instr::Branch {
            condition,
            rs1: left.number(),
            rs2: right.number(),
            offset: (bytes % 8192) as u16,
        })
    }

    /// Goes to the address in a register and so many bytes more. The only error is want of memory.
    pub fn goes_to(&mut self, address: Register, offset: u64) -> Result<(), AllocError>
        ensures { IfOk result (λ _. AddsPieces self.old self.new (goes_to_address address offset ∷ [])) }
    {
        self.known(Instr::Jalr {
            rd: Register::Zero.number(),
            rs1: address.number(),
            imm: low_12(offset),
        })
    }

    /// Calls the address in a register. The only error is want of memory.
    pub fn calls_at(&mut self, address: Register) -> Result<(), AllocError>
        ensures { IfOk result (λ _. AddsPieces self.old self.new (calls_at address ∷ [])) }
    {
        self.known(Instr::Jalr {
            rd: Register::Ra.number(),
            rs1: address.number(),
            imm: 0,
        })
    }

    /// A call of the service whose number is in t2. The only error is want of memory.
    pub fn ecall(&mut self) -> Result<(), AllocError>
        ensures { IfOk result (λ _. AddsPieces self.old self.new (ecall ∷ [])) }
    {
        self.known(Instr::Ecall)
    }
}
