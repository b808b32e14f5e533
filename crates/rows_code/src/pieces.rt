//! In which forms the pieces of functions made by hand are laid, at which words, and what their
//! words are.
//!
//! A row is a piece: a label, a jump, a row of a table of jumps or a label's address, as `label 1`
//! or `address a0 1`; a condition, two registers and a label, as `beq a0 a1 1`; `call 65536`,
//! `tail 65536` and `symbol a0 65536`, which lead to this address; or `fill 1022`, so many
//! instructions. `end 65536` lays them out as a function whose entry has this address. Any other
//! row is an error.
//!
//! Shown is a line for each piece but labels and fillings: its place, in words, its form and its
//! words. The lines were made by a script that knows the rules alone: what 13 and 21 bits reach,
//! and the manual's formats.
use anyhow::{Result, bail};
use bs_words::Name;
use mach_ir::Label;
use rv_isa::{AluImmOp, Condition, Instr, Register};
use rv_pieces::Piece;
use std::alloc::Global;

/// What is between pieces that tell something.
const FILLING: Instr = Instr::OpImm {
    op: AluImmOp::Addi,
    rd: 0,
    rs1: 0,
    imm: 0,
};

/// Puts the pieces of a line.
pub(crate) fn put_pieces(alloc: Global, pieces: &mut Vec<Piece>, line: &str) -> Result<()> {
    let (name, operands) = match line.split_once(' ') {
        Some(split) => split,
        None => (line, ""),
    };
    match operands.split_once(' ') {
        Some((first, second)) => put_two(alloc, pieces, name, first, second),
        None => put_one(alloc, pieces, name, operands),
    }
}

/// Those with one operand, a number.
fn put_one(alloc: Global, pieces: &mut Vec<Piece>, name: &str, operand: &str) -> Result<()> {
    let number = operand.parse::<u32>()?;
    match name {
        "label" => pieces.push(Piece::Label(Label(number)))?,
        "jump" => pieces.push(Piece::Jump(Label(number)))?,
        "row" => pieces.push(Piece::Row(Label(number)))?,
        "call" => pieces.push(Piece::Call(digits(alloc, operand)?))?,
        "tail" => pieces.push(Piece::TailCall(digits(alloc, operand)?))?,
        "fill" => {
            for _ in 0..number {
                pieces.push(Piece::Known(FILLING))?;
            }
        }
        _ => bail!("no piece with one operand: {name}"),
    }
    Ok(())
}

/// Those with a register first.
fn put_two(
    alloc: Global,
    pieces: &mut Vec<Piece>,
    name: &str,
    first: &str,
    second: &str,
) -> Result<()> {
    let to = register(first)?;
    match second.split_once(' ') {
        Some((right, label)) => pieces.push(Piece::Branch {
            condition: condition(name)?,
            left: to,
            right: register(right)?,
            label: Label(label.parse::<u32>()?),
        })?,
        None => pieces.push(address(alloc, to, name, second)?)?,
    }
    Ok(())
}

/// The address of a label, or of a symbol.
fn address(alloc: Global, to: Register, name: &str, target: &str) -> Result<Piece> {
    let number = target.parse::<u32>()?;
    match name {
        "address" => {
            let label = Label(number);
            Ok(Piece::LabelAddress { to, label })
        }
        "symbol" => {
            let name = digits(alloc, target)?;
            Ok(Piece::SymbolAddress { to, name })
        }
        _ => bail!("no piece with a register and a number: {name}"),
    }
}

/// The name that an address is in decimal digits.
fn digits(alloc: Global, address: &str) -> Result<Name> {
    Ok(Name::from_vec(address.as_bytes().to_vec(alloc)?))
}

fn condition(name: &str) -> Result<Condition> {
    match name {
        "beq" => Ok(Condition::Beq),
        "bne" => Ok(Condition::Bne),
        "blt" => Ok(Condition::Blt),
        "bge" => Ok(Condition::Bge),
        "bltu" => Ok(Condition::Bltu),
        "bgeu" => Ok(Condition::Bgeu),
        _ => bail!("no condition: {name}"),
    }
}

fn register(name: &str) -> Result<Register> {
    match name {
        "zero" => Ok(Register::Zero),
        "a0" => Ok(Register::A0),
        "a1" => Ok(Register::A1),
        "s9" => Ok(Register::S9),
        "t1" => Ok(Register::T1),
        "t2" => Ok(Register::T2),
        "t6" => Ok(Register::T6),
        _ => bail!("no register: {name}"),
    }
}
