//! The words of pieces, once it is known where everything lies.
ghost use Rattle.std.specs.Prelude.{◌≡◌, ◌+◌, ◌%◌, ◌<◌, ◌^◌, [], ◌∷◌, ◌++◌, map, OnOk};
ghost use Rattle.rv_layout_rules.specs.Conditions.{HasAlignedTarget};
ghost use Rattle.rv_pieces.specs.Named.{PieceFits};
ghost use Rattle.rv_layout_rules.specs.Words.{distance, branch_offset, jal_offset, upper, inverted, far_jump};
ghost use Rattle.rv_emit_rules.specs.Instructions.{low_12};
ghost use Rattle.rv_layout_rules.specs.Words.{number_into, address_into, branch_code, jump_code, call_code, code_to};
ghost use Rattle.rv_isa.specs.Encoding.{encoded, InstrFits};
ghost use Rattle.rv_isa.specs.Registers.{register_number};

use rv_isa::{AluImmOp, Condition, Instr, Register, encode};
use rv_layout_rules::Form;
use rv_pieces::Piece;
use std::alloc::AllocError;

/// The register through which what is far is reached.
const THROUGH: Register = Register::T1;

/// The bytes from one address to another, as a number of 32 bits, two's complement.
fn distance(from: u64, to: u64) -> u32
    requires from_fits { from < 2 ^ 32 }
    requires to_fits { to < 2 ^ 32 }
    ensures { result ≡ distance from to }
{
    ((to + (4_294_967_296 - from)) % 4_294_967_296) as u32
}

/// The upper 20 bits of a number, one more where the lower 12 bits are read as negative.
fn upper(number: u32) -> u32
    ensures exact { result ≡ upper number }
    ensures fits { result < 1048576 }
{
    ((u64::from(number) + 2048) / 4096 % 1_048_576) as u32
}

fn lower(number: u32) -> u16
    ensures exact { result ≡ low_12 number }
    ensures fits { result < 4096 }
{
    (number % 4096) as u16
}

fn inverted(condition: Condition) -> Condition
    ensures { result ≡ inverted condition }
{
    match condition {
        Condition::Beq => Condition::Bne,
        Condition::Bne => Condition::Beq,
        Condition::Blt => Condition::Bge,
        Condition::Bge => Condition::Blt,
        Condition::Bltu => Condition::Bgeu,
        Condition::Bgeu => Condition::Bltu,
    }
}

/// A branch between two addresses; it does not hold the offset's bits past its field.
fn near_branch(condition: Condition, left: Register, right: Register, at: u64, to: u64) -> Instr
    requires from_fits { at < 2 ^ 32 }
    requires to_fits { to < 2 ^ 32 }
    requires from_aligned { at % 4 ≡ 0 }
    requires to_aligned { to % 4 ≡ 0 }
    ensures exact { result
        ≡ Instr.Branch condition (register_number left) (register_number right) (branch_offset at to) }
    ensures fits { InstrFits result }
{
    Instr::Branch {
        condition,
        rs1: left.number(),
        rs2: right.number(),
        offset: (distance(at, to) % 8192) as u16,
    }
}

/// A branch over so many bytes, where its condition does not hold.
fn over(condition: Condition, left: Register, right: Register, bytes: u16) -> Instr
    requires { (bytes % 4 ≡ 0) × (bytes < 4096) }
    ensures exact { result ≡ Instr.Branch (inverted condition) (register_number left) (register_number right) bytes }
    ensures fits { InstrFits result }
{
    Instr::Branch {
        condition: inverted(condition),
        rs1: left.number(),
        rs2: right.number(),
        offset: bytes,
    }
}

fn near_jump(at: u64, to: u64) -> Instr
    requires from_fits { at < 2 ^ 32 }
    requires to_fits { to < 2 ^ 32 }
    requires from_aligned { at % 4 ≡ 0 }
    requires to_aligned { to % 4 ≡ 0 }
    ensures exact { result ≡ Instr.Jal 0 (jal_offset at to) }
    ensures fits { InstrFits result }
{
    Instr::Jal {
        rd: 0,
        offset: distance(at, to) % 2_097_152,
    }
}

fn put(words: &mut Vec<u32>, instr: Instr) -> Result<(), AllocError>
    requires { InstrFits instr }
    ensures { OnOk result (words.new.items ≡ words.old.items ++ map encoded (instr ∷ [])) }
{
    words.push(encode(instr))?;
    Ok(())
}

/// Goes from one address to another, through a register, with the link in another.
fn far_jump(
    words: &mut Vec<u32>,
    link: Register,
    through: Register,
    at: u64,
    to: u64,
) -> Result<(), AllocError>
    requires from_fits { at < 2 ^ 32 }
    requires to_fits { to < 2 ^ 32 }
    ensures { OnOk result (words.new.items
        ≡ words.old.items ++ map encoded (far_jump (register_number link) (register_number through) at to)) }
{
    let bytes = distance(at, to);
    put(
        words,
        Instr::Auipc {
            rd: through.number(),
            imm: upper(bytes),
        },
    )?;
    put(
        words,
        Instr::Jalr {
            rd: link.number(),
            rs1: through.number(),
            imm: lower(bytes),
        },
    )
}

/// A number of 32 bits into a register.
fn number_into(words: &mut Vec<u32>, register: Register, value: u32) -> Result<(), AllocError>
    ensures { OnOk result (words.new.items
        ≡ words.old.items ++ map encoded (number_into (register_number register) value)) }
{
    put(
        words,
        Instr::Lui {
            rd: register.number(),
            imm: upper(value),
        },
    )?;
    put(words, add(register, value))
}

/// Adds the lower part of a number to a register.
fn add(register: Register, addend: u32) -> Instr
    ensures exact { result
        ≡ Instr.OpImm AluImmOp.Addi (register_number register) (register_number register) (low_12 addend) }
    ensures fits { InstrFits result }
{
    Instr::OpImm {
        op: AluImmOp::Addi,
        rd: register.number(),
        rs1: register.number(),
        imm: lower(addend),
    }
}

fn address_into(
    words: &mut Vec<u32>,
    register: Register,
    at: u64,
    to: u64,
) -> Result<(), AllocError>
    requires from_fits { at < 2 ^ 32 }
    requires to_fits { to < 2 ^ 32 }
    ensures { OnOk result (words.new.items
        ≡ words.old.items ++ map encoded (address_into (register_number register) at to)) }
{
    let bytes = distance(at, to);
    put(
        words,
        Instr::Auipc {
            rd: register.number(),
            imm: upper(bytes),
        },
    )?;
    put(words, add(register, bytes))
}

/// Where a branch is and where it leads.
#[derive(Clone, Copy)]
struct Ends {
    at: u64,
    to: u64,
}

fn branch(
    words: &mut Vec<u32>,
    form: Form,
    condition: Condition,
    left: Register,
    right: Register,
    ends: Ends,
) -> Result<(), AllocError>
    requires from_fits { ends.at + 4 < 2 ^ 32 }
    requires to_fits { ends.to < 2 ^ 32 }
    requires from_aligned { ends.at % 4 ≡ 0 }
    requires to_aligned { ends.to % 4 ≡ 0 }
    ensures { OnOk result (words.new.items
        ≡ words.old.items ++ map encoded (branch_code form condition left right ends.at ends.to)) }
{
    match form {
        Form::Near => put(words, near_branch(condition, left, right, ends.at, ends.to)),
        Form::Middle => {
            put(words, over(condition, left, right, 8))?;
            put(words, near_jump(ends.at + 4, ends.to))
        }
        Form::Far => {
            put(words, over(condition, left, right, 12))?;
            far_jump(words, Register::Zero, THROUGH, ends.at + 4, ends.to)
        }
    }
}

fn jump(words: &mut Vec<u32>, form: Form, at: u64, to: u64) -> Result<(), AllocError>
    requires from_fits { at < 2 ^ 32 }
    requires to_fits { to < 2 ^ 32 }
    requires from_aligned { at % 4 ≡ 0 }
    requires to_aligned { to % 4 ≡ 0 }
    ensures { OnOk result (words.new.items
        ≡ words.old.items ++ map encoded (jump_code form at to)) }
{
    match form {
        Form::Near => put(words, near_jump(at, to)),
        Form::Middle => far_jump(words, Register::Zero, THROUGH, at, to),
        Form::Far => far_jump(words, Register::Zero, THROUGH, at, to),
    }
}

/// A call, or a tail call, by the distance to the callee or by its address, with the link in one
/// register and through another.
fn call(
    words: &mut Vec<u32>,
    form: Form,
    link: Register,
    through: Register,
    at: u64,
    to: u32,
) -> Result<(), AllocError>
    requires from_fits { at < 2 ^ 32 }
    ensures { OnOk result (words.new.items ≡ words.old.items
        ++ map encoded (call_code form (register_number link) (register_number through) at to)) }
{
    match form {
        Form::Near => far_jump(words, link, through, at, u64::from(to)),
        Form::Middle => address_jump(words, link, through, to),
        Form::Far => address_jump(words, link, through, to),
    }
}

/// Goes to an address, through a register, with the link in another.
fn address_jump(
    words: &mut Vec<u32>,
    link: Register,
    through: Register,
    to: u32,
) -> Result<(), AllocError>
    ensures { OnOk result (words.new.items ≡ words.old.items
        ++ map encoded (number_into (register_number through) to
        ++ Instr.Jalr (register_number link) (register_number through) 0 ∷ [])) }
{
    number_into(words, through, to)?;
    put(
        words,
        Instr::Jalr {
            rd: link.number(),
            rs1: through.number(),
            imm: 0,
        },
    )
}

/// Puts the words of a piece that is at an address, in its form. `to` is what its name stands for:
/// an address, or the number of an external call. The only error is want of memory.
pub fn put_piece(
    words: &mut Vec<u32>,
    piece: &Piece,
    form: Form,
    at: u64,
    to: u32,
) -> Result<(), AllocError>
    requires fits { PieceFits piece.now }
    requires from_fits { at + 4 < 2 ^ 32 }
    requires from_aligned { at % 4 ≡ 0 }
    requires to_aligned { HasAlignedTarget to piece.now }
    ensures { OnOk result (words.new.items
        ≡ words.old.items ++ map encoded (code_to at to piece.now form)) }
{
    let place = u64::from(to);
    match piece {
        Piece::Known(instr) => put(words, *instr),
        Piece::Label(_) => Ok(()),
        Piece::Branch {
            condition,
            left,
            right,
            label: _,
        } => {
            branch(
                words,
                form,
                *condition,
                *left,
                *right,
                Ends { at, to: place },
            )
        }
        Piece::Jump(_) => jump(words, form, at, place),
        Piece::Row(_) => far_jump(words, Register::Zero, THROUGH, at, place),
        Piece::LabelAddress {
            to: register,
            label: _,
        } => address_into(words, *register, at, place),
        Piece::Call(_) => call(words, form, Register::Ra, Register::Ra, at, to),
        Piece::TailCall(_) => call(words, form, Register::Zero, THROUGH, at, to),
        Piece::SymbolAddress {
            to: register,
            name: _,
        } => number_into(words, *register, to),
        Piece::ExternalNumber {
            to: register,
            row: _,
        } => number_into(words, *register, to),
        Piece::Descriptor(_) => Ok(()),
    }
}
