//! The instruction of a word.

ghost use Rattle.std.specs.Prelude.{◌≡◌, IfSome};
ghost use Rattle.rv_isa.specs.Word.{FieldsFit};
ghost use Rattle.rv_isa.specs.Immediate.{i_raw, s_raw, b_raw, u_raw, j_raw};
ghost use Rattle.rv_isa.specs.Encoding.{InstrFits, encoded};
ghost use Rattle.rv_isa.specs.Decoding.{decoded, row_of_fields, opcode_row};
ghost use Rattle.rv_isa.specs.Rows as opcode;
ghost use Rattle.rv_isa.specs.Rows.{OP-IMM, OP-IMM-32};

use crate::instr::{
    AluImmOp, AluOp, AluWordOp, Condition, Instr, LoadWidth, ShiftOp, ShiftWordOp, StoreWidth,
};
use crate::opcodes::{
    AUIPC, BRANCH, JAL, JALR, LOAD, LUI, OP, OP_32, OP_IMM, OP_IMM_32, STORE, SYSTEM,
};
use crate::word::Fields;

/// The instruction of `word`: `None` exactly where the table has no row for it. No other word has
/// the same instruction, since `encode` gives `word` back.
pub fn decode(word: u32) -> Option<Instr>
    ensures exact { result ≡ decoded word }
    ensures fits { IfSome result InstrFits }
    ensures encodes { IfSome result (λ i. encoded i ≡ word) }
{
    row(Fields::split(word))
}

/// The instruction that has these fields.
fn row(f: Fields) -> Option<Instr>
    requires { FieldsFit f }
    ensures { result ≡ row_of_fields f }
{
    match f.opcode {
        LUI => Some(Instr::Lui {
            rd: f.rd,
            imm: u_immediate(f),
        }),
        AUIPC => Some(Instr::Auipc {
            rd: f.rd,
            imm: u_immediate(f),
        }),
        JAL => Some(Instr::Jal {
            rd: f.rd,
            offset: j_immediate(f),
        }),
        JALR if f.funct3 == 0b000 => {
            Some(Instr::Jalr {
                rd: f.rd,
                rs1: f.rs1,
                imm: i_immediate(f),
            })
        }
        BRANCH => branch(f),
        LOAD => load(f),
        STORE => store(f),
        OP_IMM => op_imm(f),
        OP => {
            let op = AluOp::from_bits(f.funct7, f.funct3)?;
            Some(Instr::Op {
                op,
                rd: f.rd,
                rs1: f.rs1,
                rs2: f.rs2,
            })
        }
        OP_IMM_32 => op_imm_32(f),
        OP_32 => {
            let op = AluWordOp::from_bits(f.funct7, f.funct3)?;
            Some(Instr::OpWord {
                op,
                rd: f.rd,
                rs1: f.rs1,
                rs2: f.rs2,
            })
        }
        SYSTEM if f.rd == 0 && f.funct3 == 0 && f.rs1 == 0 && f.rs2 == 0 && f.funct7 == 0 => {
            Some(Instr::Ecall)
        }
        _ => None,
    }
}

/// The rows of BRANCH.
fn branch(f: Fields) -> Option<Instr>
    requires { FieldsFit f }
    ensures { result ≡ opcode_row opcode.BRANCH f }
{
    let condition = Condition::from_bits(f.funct3)?;
    Some(Instr::Branch {
        condition,
        rs1: f.rs1,
        rs2: f.rs2,
        offset: b_immediate(f),
    })
}

/// The rows of LOAD.
fn load(f: Fields) -> Option<Instr>
    requires { FieldsFit f }
    ensures { result ≡ opcode_row opcode.LOAD f }
{
    let width = LoadWidth::from_bits(f.funct3)?;
    Some(Instr::Load {
        width,
        rd: f.rd,
        rs1: f.rs1,
        imm: i_immediate(f),
    })
}

/// The rows of STORE.
fn store(f: Fields) -> Option<Instr>
    requires { FieldsFit f }
    ensures { result ≡ opcode_row opcode.STORE f }
{
    let width = StoreWidth::from_bits(f.funct3)?;
    Some(Instr::Store {
        width,
        rs1: f.rs1,
        rs2: f.rs2,
        imm: s_immediate(f),
    })
}

/// The rows of OP-IMM.
fn op_imm(f: Fields) -> Option<Instr>
    requires { FieldsFit f }
    ensures { result ≡ opcode_row OP-IMM f }
{
    if let Some(op) = AluImmOp::from_bits(f.funct3) {
        return Some(Instr::OpImm {
            op,
            rd: f.rd,
            rs1: f.rs1,
            imm: i_immediate(f),
        });
    }
    let op = ShiftOp::from_bits(f.funct7 / 2, f.funct3)?;
    Some(Instr::Shift {
        op,
        rd: f.rd,
        rs1: f.rs1,
        amount: f.rs2 + 32 * (f.funct7 % 2),
    })
}

/// The rows of OP-IMM-32.
fn op_imm_32(f: Fields) -> Option<Instr>
    requires { FieldsFit f }
    ensures { result ≡ opcode_row OP-IMM-32 f }
{
    if f.funct3 == 0b000 {
        return Some(Instr::Addiw {
            rd: f.rd,
            rs1: f.rs1,
            imm: i_immediate(f),
        });
    }
    let op = ShiftWordOp::from_bits(f.funct7, f.funct3)?;
    Some(Instr::ShiftWord {
        op,
        rd: f.rd,
        rs1: f.rs1,
        amount: f.rs2,
    })
}

/// The immediate of the manual's I-type, its 12 bits.
fn i_immediate(f: Fields) -> u16
    requires { FieldsFit f }
    ensures { result ≡ i_raw f }
{
    f.rs2 as u16 + 32 * f.funct7 as u16
}

/// The immediate of the S-type, its 12 bits.
fn s_immediate(f: Fields) -> u16
    requires { FieldsFit f }
    ensures { result ≡ s_raw f }
{
    f.rd as u16 + 32 * f.funct7 as u16
}

/// The immediate of the B-type, its 13 bits with the lowest, 0.
fn b_immediate(f: Fields) -> u16
    requires { FieldsFit f }
    ensures { result ≡ b_raw f }
{
    let (rd, funct7) = (f.rd as u16, f.funct7 as u16);
    2 * (rd / 2) + 32 * (funct7 % 64) + 2048 * (rd % 2) + 4096 * (funct7 / 64)
}

/// The immediate of the U-type, its upper 20 bits.
fn u_immediate(f: Fields) -> u32
    requires { FieldsFit f }
    ensures { result ≡ u_raw f }
{
    f.funct3 as u32 + 8 * (f.rs1 as u32 + 32 * (f.rs2 as u32 + 32 * f.funct7 as u32))
}

/// The immediate of the J-type, its 21 bits with the lowest, 0.
fn j_immediate(f: Fields) -> u32
    requires { FieldsFit f }
    ensures { result ≡ j_raw f }
{
    let (rs2, funct7) = (f.rs2 as u32, f.funct7 as u32);
    let middle = 4096 * (f.funct3 as u32 + 8 * f.rs1 as u32);
    2 * (rs2 / 2) + 32 * (funct7 % 64) + 2048 * (rs2 % 2) + middle + 1048576 * (funct7 / 64)
}
