//! Where the labels of a function lie.
ghost use Rattle.std.specs.Prelude.{◌≡◌, ℕ, ◌<◌, ◌≤◌, ◌^◌, length, IfOk};
ghost use Rattle.rv_layout.specs.Tables.{label_noted, words_of_labels, IsLabelTable, LabelBelow, LabelsBelow};

use crate::forms::words_of;
use mach_ir::Label;
use rv_layout_rules::Form;
use rv_pieces::Piece;
use std::alloc::{AllocError, Global};

/// For each label of a function, by its number, the words before it.
#[derive(Drop)]
pub struct LabelOffsets {
    places: Vec<Option<u64>>,
}

/// A number above that of the label that is here, if one is.
fn bound_of(piece: &Piece) -> usize
    ensures { (bound : ℕ) → result ≤ bound → LabelBelow bound piece.now }
{
    match piece {
        Piece::Label(label) => label.0 as usize + 1,
        Piece::Known(_)
        | Piece::Branch { .. }
        | Piece::Jump(_)
        | Piece::Row(_)
        | Piece::LabelAddress { .. }
        | Piece::Call(_)
        | Piece::TailCall(_)
        | Piece::SymbolAddress { .. }
        | Piece::ExternalNumber { .. }
        | Piece::Descriptor(_) => 0,
    }
}

/// A number above those of all labels that are among the pieces.
pub fn label_bound(code: &[Piece]) -> usize
    ensures { LabelsBelow result code.now }
{
    let mut bound: usize = 0;
    for piece in code {
        bound = bound.max(bound_of(piece));
    }
    bound
}

impl LabelOffsets {
    /// The labels of pieces that are in these forms. `bound` is above their numbers.
    /// The only error is want of memory.
    pub fn of(
        alloc: Global,
        code: &[Piece],
        forms: &[Form],
        bound: usize,
    ) -> Result<LabelOffsets, AllocError>
        requires few { length code.now < 2 ^ 48 }
        requires same { length forms.now ≡ length code.now }
        requires below { LabelsBelow bound code.now }
        ensures { IfOk result (IsLabelTable code.now forms.now) }
    {
        let mut places: Vec<Option<u64>> = vec![in alloc; None; bound]?;
        let mut at: u64 = 0;
        for index in 0..code.len() {
            note(&mut places, &code[index], at);
            at += words_of(&code[index], forms[index]);
        }
        Ok(LabelOffsets { places })
    }

    /// The words before a label. One that occurs nowhere counts as being at the entry.
    pub fn place(&self, label: Label) -> u64
        ensures { result ≡ words_of_labels self.now label }
    {
        match self.places.get(label.0 as usize) {
            Some(Some(place)) => *place,
            _ => 0,
        }
    }
}

/// Notes the place of a label that is here, where it has none yet.
fn note(places: &mut Vec<Option<u64>>, piece: &Piece, at: u64)
    requires { LabelBelow (length places.old.items) piece.now }
    ensures { places.new.items ≡ label_noted places.old.items piece.now at }
{
    if let Piece::Label(label) = piece {
        let index = label.0 as usize;
        if places[index].is_none() {
            places[index] = Some(at);
        }
    }
}
