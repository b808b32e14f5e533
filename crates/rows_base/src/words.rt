//! What the arithmetic on words and the sets of bits give.
//!
//! A row is an operation with its operands: `add 1 2`, `sar 5 1` or `sext 255 8`, words being written without a sign;
//! or `bits`, a size, and what is done with two sets `a` and `b` of numbers below that size: `a3` and `b3` put 3 in,
//! `-3` takes it out of `a`, `|` puts all of `b` into `a`, `0` empties `a`, `?3` asks whether `a` has it and `>3` which
//! is the first member of `a` from 3 on. The wanted lines are those of the RISC-V manual's tables and of a script with
//! integers of any size.
use crate::sets::told_of_sets;
use anyhow::{Result, bail};
use bs_words::{add, div, mul, mulh, rem, sar, sext, shl, shr, signed, sub};
use std::alloc::{AllocError, Global};
use std::num::ParseIntError;

/// What is shown of a row.
pub(crate) fn said_to(alloc: Global, row: &str) -> Result<Vec<u8>> {
    let said = match row.strip_prefix("bits ") {
        Some(words) => told_of_sets(alloc, words)?,
        None => told_of_words(alloc, row)?,
    };
    Ok(said.into_bytes())
}

/// An operation that gives a word.
#[derive(Clone, Copy)]
enum Operation {
    Add,
    Sub,
    Mul,
    Mulh,
    Div,
    Rem,
    Shl,
    Shr,
    Sar,
    Sext,
}

/// What an operation gives, or `no row` where it has no value on these operands.
fn told_of_words(alloc: Global, line: &str) -> Result<String> {
    let Some((name, operands)) = line.split_once(' ') else {
        bail!("no operands: {line}");
    };
    let (left, right) = operands_of(operands)?;
    match name {
        "signed" => Ok(told_of_signed(alloc, signed(left))?),
        _ => Ok(told_of_word(alloc, given(operation_of(name)?, left, right))?),
    }
}

/// One operand or two; the second is 0 where there is one.
fn operands_of(operands: &str) -> Result<(u64, u64), ParseIntError> {
    match operands.split_once(' ') {
        Some((left, right)) => Ok((left.parse::<u64>()?, right.parse::<u64>()?)),
        None => Ok((operands.parse::<u64>()?, 0)),
    }
}

/// The line of a number with its sign.
fn told_of_signed(alloc: Global, value: i64) -> Result<String, AllocError> {
    format!(in alloc; "{value}\n")
}

/// The line of a word, or of none.
fn told_of_word(alloc: Global, word: Option<u64>) -> Result<String, AllocError> {
    match word {
        Some(word) => format!(in alloc; "{word}\n"),
        None => String::from_str(alloc, "no row\n"),
    }
}

/// The operation with a name.
fn operation_of(name: &str) -> Result<Operation> {
    match read_operation(name) {
        Some(operation) => Ok(operation),
        None => bail!("no operation: {name}"),
    }
}

/// The operation with a name, if there is one.
fn read_operation(name: &str) -> Option<Operation> {
    match name {
        "add" => Some(Operation::Add),
        "sub" => Some(Operation::Sub),
        "mul" => Some(Operation::Mul),
        "mulh" => Some(Operation::Mulh),
        "div" => Some(Operation::Div),
        "rem" => Some(Operation::Rem),
        "shl" => Some(Operation::Shl),
        "shr" => Some(Operation::Shr),
        "sar" => Some(Operation::Sar),
        "sext" => Some(Operation::Sext),
        _ => None,
    }
}

/// What an operation gives, if it has a value on these operands.
fn given(operation: Operation, a: u64, b: u64) -> Option<u64> {
    match operation {
        Operation::Add => Some(add(a, b)),
        Operation::Sub => Some(sub(a, b)),
        Operation::Mul => Some(mul(a, b)),
        Operation::Mulh => Some(mulh(a, b)),
        Operation::Div if b != 0 => Some(div(a, b)),
        Operation::Rem if b != 0 => Some(rem(a, b)),
        Operation::Shl if b < 64 => Some(shl(a, b as u32)),
        Operation::Shr if b < 64 => Some(shr(a, b as u32)),
        Operation::Sar if b < 64 => Some(sar(a, b as u32)),
        Operation::Sext if 0 < b && b <= 64 => Some(sext(a, b as u32)),
        Operation::Div
        | Operation::Rem
        | Operation::Shl
        | Operation::Shr
        | Operation::Sar
        | Operation::Sext => None,
    }
}
