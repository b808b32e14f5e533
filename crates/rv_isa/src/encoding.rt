//! The word of an instruction.

ghost use Rattle.std.specs.Prelude.{◌≡◌, ◌<◌};
ghost use Rattle.rv_isa.specs.Word.{FieldsFit};
ghost use Rattle.rv_isa.specs.Encoding.{
  InstrFits,
  encoded,
  fields_of,
  r_type,
  i_type,
  s_type,
  b_type,
  u_type,
  j_type,
};
ghost use Rattle.rv_isa.specs.Decoding.{decoded};

use crate::instr::Instr;
use crate::opcodes::{
    AUIPC, BRANCH, JAL, JALR, LOAD, LUI, OP, OP_32, OP_IMM, OP_IMM_32, STORE, SYSTEM,
};
use crate::word::Fields;

/// The word of `instr`, whose numbers fit their fields. `decode` reads it back.
pub fn encode(instr: Instr) -> u32
    requires { InstrFits instr }
    ensures exact { result ≡ encoded instr }
    ensures decodes { decoded result ≡ Some instr }
{
    fields(instr).join()
}

/// The fields of the word of `instr`.
fn fields(instr: Instr) -> Fields
    requires { InstrFits instr }
    ensures exact { result ≡ fields_of instr }
    ensures fit { FieldsFit result }
{
    match instr {
        Instr::Lui { rd, imm } => upper(LUI, rd, imm),
        Instr::Auipc { rd, imm } => upper(AUIPC, rd, imm),
        Instr::Jal { rd, offset } => jump(JAL, rd, offset),
        Instr::Jalr { rd, rs1, imm } => immediate(JALR, 0b000, rd, rs1, imm),
        Instr::Branch {
            condition,
            rs1,
            rs2,
            offset,
        } => { branch(BRANCH, condition.bits(), rs1, rs2, offset) }
        Instr::Load {
            width,
            rd,
            rs1,
            imm,
        } => immediate(LOAD, width.bits(), rd, rs1, imm),
        Instr::Store {
            width,
            rs1,
            rs2,
            imm,
        } => store(STORE, width.bits(), rs1, rs2, imm),
        Instr::OpImm { op, rd, rs1, imm } => immediate(OP_IMM, op.bits(), rd, rs1, imm),
        Instr::Shift {
            op,
            rd,
            rs1,
            amount,
        } => {
            let (funct6, funct3) = op.bits();
            let funct7 = amount / 32 + 2 * funct6;
            register(OP_IMM, (funct7, funct3), rd, rs1, amount % 32)
        }
        Instr::Op { op, rd, rs1, rs2 } => register(OP, op.bits(), rd, rs1, rs2),
        Instr::Addiw { rd, rs1, imm } => immediate(OP_IMM_32, 0b000, rd, rs1, imm),
        Instr::ShiftWord {
            op,
            rd,
            rs1,
            amount,
        } => register(OP_IMM_32, op.bits(), rd, rs1, amount),
        Instr::OpWord { op, rd, rs1, rs2 } => register(OP_32, op.bits(), rd, rs1, rs2),
        Instr::Ecall => register(SYSTEM, (0, 0), 0, 0, 0),
    }
}

/// The manual's R-type; `funct` is funct7 and funct3.
fn register(opcode: u8, funct: (u8, u8), rd: u8, rs1: u8, rs2: u8) -> Fields
    ensures { result ≡ r_type opcode funct.0 funct.1 rd rs1 rs2 }
{
    let (funct7, funct3) = funct;
    Fields {
        opcode,
        rd,
        funct3,
        rs1,
        rs2,
        funct7,
    }
}

/// The manual's I-type.
fn immediate(opcode: u8, funct3: u8, rd: u8, rs1: u8, imm: u16) -> Fields
    requires { imm < 4096 }
    ensures { result ≡ i_type opcode funct3 rd rs1 imm }
{
    Fields {
        opcode,
        rd,
        funct3,
        rs1,
        rs2: (imm % 32) as u8,
        funct7: (imm / 32) as u8,
    }
}

/// The manual's S-type.
fn store(opcode: u8, funct3: u8, rs1: u8, rs2: u8, imm: u16) -> Fields
    requires { imm < 4096 }
    ensures { result ≡ s_type opcode funct3 rs1 rs2 imm }
{
    Fields {
        opcode,
        rd: (imm % 32) as u8,
        funct3,
        rs1,
        rs2,
        funct7: (imm / 32) as u8,
    }
}

/// The manual's B-type.
fn branch(opcode: u8, funct3: u8, rs1: u8, rs2: u8, offset: u16) -> Fields
    requires { offset < 8192 }
    ensures { result ≡ b_type opcode funct3 rs1 rs2 offset }
{
    let rd = (offset / 2048 % 2 + 2 * (offset / 2 % 16)) as u8;
    let funct7 = (offset / 32 % 64 + 64 * (offset / 4096)) as u8;
    Fields {
        opcode,
        rd,
        funct3,
        rs1,
        rs2,
        funct7,
    }
}

/// The manual's U-type.
fn upper(opcode: u8, rd: u8, imm: u32) -> Fields
    requires { imm < 1048576 }
    ensures { result ≡ u_type opcode rd imm }
{
    Fields {
        opcode,
        rd,
        funct3: (imm % 8) as u8,
        rs1: (imm / 8 % 32) as u8,
        rs2: (imm / 256 % 32) as u8,
        funct7: (imm / 8192) as u8,
    }
}

/// The manual's J-type.
fn jump(opcode: u8, rd: u8, offset: u32) -> Fields
    requires { offset < 2097152 }
    ensures { result ≡ j_type opcode rd offset }
{
    Fields {
        opcode,
        rd,
        funct3: (offset / 4096 % 8) as u8,
        rs1: (offset / 32768 % 32) as u8,
        rs2: (offset / 2048 % 2 + 2 * (offset / 2 % 16)) as u8,
        funct7: (offset / 32 % 64 + 64 * (offset / 1048576)) as u8,
    }
}
