//! The descriptors of a function.
ghost use Rattle.std.specs.Prelude.{◌≡◌, ◌+◌, ◌*◌, ◌<◌, ◌^◌, ◌++◌, length, map, IfOk, OnOk};
ghost use Rattle.image_form.specs.Tables.{desc};
ghost use Rattle.rv_layout_rules.specs.Forms.{total_words};
ghost use Rattle.rv_layout_rules.specs.Laid.{descriptor_laid_at, descs_in};
ghost use Rattle.rv_layout.specs.Descs.{desc_in};

use crate::forms::words_of;
use bs_words::List;
use image_form::DescRow;
use lin_ir::Descr;
use rv_layout_rules::Form;
use rv_pieces::Piece;
use std::alloc::{AllocError, Global};

/// The row of a descriptor whose mark is at this word of the code: there the call returns.
fn row(alloc: Global, descr: &Descr, at: u64) -> Result<DescRow, AllocError>
    requires { 4 * at < 2 ^ 32 }
    ensures { IfOk result (λ row. desc row ≡ descriptor_laid_at at descr.now) }
{
    let entries = descr.entries.as_slice().to_vec(alloc)?;
    Ok(DescRow {
        after: (4 * at) as u32,
        size: descr.size,
        entries: List::from_vec(entries),
    })
}

/// Puts the row of a descriptor that is here, if one is.
fn put_desc(
    alloc: Global,
    rows: &mut Vec<DescRow>,
    piece: &Piece,
    at: u64,
) -> Result<(), AllocError>
    requires { 4 * at < 2 ^ 32 }
    ensures { OnOk result (map desc rows.new.items
        ≡ map desc rows.old.items ++ desc_in at piece.now) }
{
    if let Piece::Descriptor(descr) = piece {
        rows.push(row(alloc, descr, at)?)?;
    }
    Ok(())
}

/// Puts the rows of the descriptors among pieces, the first of which is at this word of the code.
/// The only error is want of memory.
#[tactic(auto, using(crate::proofs::Steps::descs_step))]
pub fn put_descs(
    alloc: Global,
    rows: &mut Vec<DescRow>,
    code: &[Piece],
    forms: &[Form],
    from: u64,
) -> Result<(), AllocError>
    requires same { length forms.now ≡ length code.now }
    requires inside { 4 * (from + total_words code.now forms.now) < 2 ^ 32 }
    ensures { OnOk result (map desc rows.new.items
        ≡ map desc rows.old.items ++ descs_in from code.now forms.now) }
{
    let mut at = from;
    for index in 0..code.len() {
        let piece = &code[index];
        let form = forms[index];
        put_desc(alloc, rows, piece, at)?;
        at += words_of(piece, form);
    }
    Ok(())
}
