//! The words of Linear functions that are made by hand, with their frame descriptors, once they are
//! emitted and laid out.
//!
//! The rows are functions: `lin SLOTS`, an instruction a line in the form that `rows_meanings` has
//! too, and `end ENTRY`, the address of the function's first word. A symbol's name is its address
//! in decimal digits, an external call's name its number. Shown are for each function its words, of
//! which none are the program's: a script has written assembly for each line from the machine's
//! rules, and GNU's assembler and linker have made words of it. The last 71 functions come with
//! these words in the table `images` of `rows_commands` too, which runs them.
ghost use Rattle.lin_ir.specs.Formed.{AreLocated};

use crate::laid::put_code;
use anyhow::{Result, bail};
use bs_words::{Name, Ret};
use frame_tables::descriptors;
use lin_ir::{Lin, Line};
use lin_tests::{has_one_depth, is_countable, is_located, is_within};
use mach_ir::Seq;
use rows_reading::apart;
use rv_emit::emit;
use std::alloc::Global;
use std::io::Write;

/// The function with these lines.
pub(crate) fn function(alloc: Global, slots: u32, lines: Vec<Line>) -> Lin {
    Lin {
        name: Name::from_vec(Vec::new(alloc)),
        params: Seq::new(alloc),
        result: Ret::Unit,
        slots,
        code: Seq::from_vec(lines),
    }
}

/// Puts the instruction of a line.
pub(crate) fn take(alloc: Global, lines: &mut Vec<Line>, row: &str) -> Result<()> {
    match apart(alloc, row)?.line()? {
        Some(line) => lines.push(line)?,
        None => bail!("no instruction: {row}"),
    }
    Ok(())
}

/// The words of a function whose locations are colours, t0 and its slots.
fn put_located<W: Write>(alloc: Global, out: &mut W, lin: &Lin, entry: u32) -> Result<()>
    requires { AreLocated lin.now }
{
    if !is_countable(lin) {
        out.write_all(b"some line or slot has no number\n")?;
        return Ok(());
    }
    if !has_one_depth(alloc, lin)? {
        out.write_all(b"some place has two numbers of traps\n")?;
        return Ok(());
    }
    if !is_within(alloc, lin)? {
        out.write_all(b"some frame is too large\n")?;
        return Ok(());
    }
    let marks = descriptors(alloc, lin)?;
    let pieces = emit(alloc, lin, marks.as_slice())?;
    put_code(alloc, out, pieces.code.as_slice(), entry)
}

/// Puts the words of the function whose entry is at this address.
pub(crate) fn put_words_of<W: Write>(
    alloc: Global,
    out: &mut W,
    lin: &Lin,
    entry: u32,
) -> Result<()> {
    if is_located(lin) {
        put_located(alloc, out, lin, entry)
    } else {
        out.write_all(b"some location is no colour, t0 or slot\n")?;
        Ok(())
    }
}
