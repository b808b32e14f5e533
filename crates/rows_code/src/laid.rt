//! From the pieces of a function to the forms in which they are laid, and to its words.
ghost use Rattle.std.specs.Prelude.{IsTrue};
ghost use Rattle.rv_layout_rules.specs.Conditions.{HasAlignedTarget};
ghost use Rattle.rv_isa.specs.Encoding.{InstrFits};
ghost use Rattle.rv_pieces.specs.Named.{PieceFits};

use anyhow::{Result, bail, ensure};
use bs_words::Name;
use mach_ir::Label;
use rv_isa::Instr;
use rv_layout::{forms_of, put_piece, words_of};
use rv_layout_rules::Form;
use rv_pieces::Piece;
use std::alloc::Global;
use std::io::Write;

/// The words before each label, and its number.
fn places(alloc: Global, code: &[Piece], forms: &[Form]) -> Result<Vec<(u32, u64)>> {
    let mut of = Vec::new(alloc);
    let mut at: u64 = 0;
    for (piece, form) in code.iter().zip(forms) {
        if let Piece::Label(label) = piece {
            of.push((label.0, at))?;
        }
        at = at.wrapping_add(words_of(piece, *form));
    }
    Ok(of)
}

/// The bytes of so many words.
fn bytes(words: u64) -> u32 {
    ((words % 0x1000_0000) * 4) as u32
}

/// The address of a label, after an entry.
fn address(places: &[(u32, u64)], entry: u32, label: Label) -> Result<u32> {
    for (other, at) in places {
        if *other == label.0 {
            return Ok(entry.wrapping_add(bytes(*at)));
        }
    }
    bail!("no label: {}", label.0)
}

/// The number that a name is in decimal digits.
fn number(name: &Name) -> Result<u32> {
    let mut number: u32 = 0;
    for digit in name.as_bytes() {
        ensure!(digit.is_ascii_digit(), "some name is no number");
        number = number
            .wrapping_mul(10)
            .wrapping_add(u32::from(*digit).wrapping_sub(48));
    }
    Ok(number)
}

/// What the name of a piece stands for.
fn target(places: &[(u32, u64)], entry: u32, piece: &Piece) -> Result<u32> {
    match piece {
        Piece::Branch {
            condition: _,
            left: _,
            right: _,
            label,
        } => address(places, entry, *label),
        Piece::Jump(label) => address(places, entry, *label),
        Piece::Row(label) => address(places, entry, *label),
        Piece::LabelAddress { to: _, label } => address(places, entry, *label),
        Piece::Call(name) => number(name),
        Piece::TailCall(name) => number(name),
        Piece::SymbolAddress { to: _, name } => number(name),
        Piece::ExternalNumber { to: _, row } => number(&row.name),
        Piece::Known(_) | Piece::Label(_) | Piece::Descriptor(_) => Ok(0),
    }
}

/// Whether the numbers of an instruction fit its fields.
fn instr_fits(instr: Instr) -> bool
    ensures { IsTrue result → InstrFits instr }
{
    match instr {
        Instr::Lui { rd, imm } => rd < 32 && imm < 0x10_0000,
        Instr::Auipc { rd, imm } => rd < 32 && imm < 0x10_0000,
        Instr::Jal { rd, offset } => rd < 32 && offset < 0x20_0000 && offset % 2 == 0,
        Instr::Jalr { rd, rs1, imm } => rd < 32 && rs1 < 32 && imm < 4096,
        Instr::Branch {
            condition: _,
            rs1,
            rs2,
            offset,
        } => rs1 < 32 && rs2 < 32 && offset < 8192 && offset % 2 == 0,
        Instr::Load {
            width: _,
            rd,
            rs1,
            imm,
        } => rd < 32 && rs1 < 32 && imm < 4096,
        Instr::Store {
            width: _,
            rs1,
            rs2,
            imm,
        } => rs1 < 32 && rs2 < 32 && imm < 4096,
        Instr::OpImm {
            op: _,
            rd,
            rs1,
            imm,
        } => rd < 32 && rs1 < 32 && imm < 4096,
        Instr::Shift {
            op: _,
            rd,
            rs1,
            amount,
        } => rd < 32 && rs1 < 32 && amount < 64,
        Instr::Op {
            op: _,
            rd,
            rs1,
            rs2,
        } => rd < 32 && rs1 < 32 && rs2 < 32,
        Instr::Addiw { rd, rs1, imm } => rd < 32 && rs1 < 32 && imm < 4096,
        Instr::ShiftWord {
            op: _,
            rd,
            rs1,
            amount,
        } => rd < 32 && rs1 < 32 && amount < 32,
        Instr::OpWord {
            op: _,
            rd,
            rs1,
            rs2,
        } => rd < 32 && rs1 < 32 && rs2 < 32,
        Instr::Ecall => true,
    }
}

/// Whether its numbers fit, and it leads to where an instruction may be.
fn is_settled(piece: &Piece, to: u32) -> bool
    ensures { IsTrue result → PieceFits piece.now × HasAlignedTarget to piece.now }
{
    match piece {
        Piece::Known(instr) => instr_fits(*instr),
        Piece::Label(_) => true,
        Piece::Branch {
            condition: _,
            left: _,
            right: _,
            label: _,
        } => to % 4 == 0,
        Piece::Jump(_) => to % 4 == 0,
        Piece::Row(_) => true,
        Piece::LabelAddress { to: _, label: _ } => true,
        Piece::Call(_) => true,
        Piece::TailCall(_) => true,
        Piece::SymbolAddress { to: _, name: _ } => true,
        Piece::ExternalNumber { to: _, row: _ } => true,
        Piece::Descriptor(_) => true,
    }
}

/// Puts the words of a piece at an address, none where it cannot be there.
fn put_words_at(words: &mut Vec<u32>, piece: &Piece, form: Form, at: u64, to: u32) -> Result<()> {
    if is_settled(piece, to) && at % 4 == 0 && at < 0xFFFF_0000 {
        put_piece(words, piece, form, at, to)?;
    }
    Ok(())
}

/// The words of pieces, whose first is at this address.
fn words(
    alloc: Global,
    code: &[Piece],
    forms: &[Form],
    places: &[(u32, u64)],
    entry: u32,
) -> Result<Vec<u32>> {
    let mut words = Vec::new(alloc);
    let mut at: u64 = 0;
    for (piece, form) in code.iter().zip(forms) {
        let to = target(places, entry, piece)?;
        let place = u64::from(entry) + u64::from(bytes(at));
        put_words_at(&mut words, piece, *form, place, to)?;
        at = at.wrapping_add(words_of(piece, *form));
    }
    Ok(words)
}

/// Puts the words of pieces, whose first is at this address, in a line.
pub(crate) fn put_code<W: Write>(
    alloc: Global,
    out: &mut W,
    code: &[Piece],
    entry: u32,
) -> Result<()> {
    if code.len() >= 1 << 32 {
        bail!("too many pieces");
    }
    let forms = forms_of(alloc, code)?;
    let places = places(alloc, code, forms.as_slice())?;
    let words = words(alloc, code, forms.as_slice(), places.as_slice(), entry)?;
    for word in words.as_slice() {
        let digits = format!(in alloc; "{word:08x} ")?;
        out.write_all(digits.as_bytes())?;
    }
    out.write_all(b"\n")?;
    Ok(())
}

/// Whether a line shows it.
fn is_told(piece: &Piece) -> bool {
    match piece {
        Piece::Known(_) | Piece::Label(_) => false,
        Piece::Branch { .. } | Piece::Jump(_) | Piece::Row(_) => true,
        Piece::LabelAddress { .. } | Piece::SymbolAddress { .. } => true,
        Piece::Call(_) | Piece::TailCall(_) => true,
        Piece::ExternalNumber { .. } | Piece::Descriptor(_) => true,
    }
}

/// Puts a line with a place, in words, a form and words.
fn put_line<W: Write>(
    alloc: Global,
    out: &mut W,
    at: u64,
    form: Form,
    words: &[u32],
) -> Result<()> {
    let place = format!(in alloc; "{at} {form:?}")?;
    out.write_all(place.as_bytes())?;
    for word in words {
        let digits = format!(in alloc; " {word:08x}")?;
        out.write_all(digits.as_bytes())?;
    }
    out.write_all(b"\n")?;
    Ok(())
}

/// Puts a line for each piece but labels and fillings, where the first piece is at this address.
pub(crate) fn put_forms<W: Write>(
    alloc: Global,
    out: &mut W,
    code: &[Piece],
    entry: u32,
) -> Result<()> {
    if code.len() >= 1 << 32 {
        bail!("too many pieces");
    }
    let forms = forms_of(alloc, code)?;
    let places = places(alloc, code, forms.as_slice())?;
    let mut at: u64 = 0;
    for (piece, form) in code.iter().zip(forms.as_slice()) {
        if is_told(piece) {
            let to = target(places.as_slice(), entry, piece)?;
            let place = u64::from(entry) + u64::from(bytes(at));
            let mut words = Vec::new(alloc);
            put_words_at(&mut words, piece, *form, place, to)?;
            put_line(alloc, out, at, *form, words.as_slice())?;
        }
        at = at.wrapping_add(words_of(piece, *form));
    }
    Ok(())
}
