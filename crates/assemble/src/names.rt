//! What the pieces of a function name.
//!
//! Names are resolved to one target for each piece before words are put.
ghost use Rattle.std.specs.Prelude.{◌≡◌, ◌+◌, ◌*◌, ◌<◌, ◌≤◌, ℕ, None, map, IfOk};
ghost use Rattle.assemble.specs.Source.{IsSource, laid_of, addresses_named_by, tree_of, source_entries};
ghost use Rattle.cmm_data.specs.Placement.{value_of_symbol};
ghost use Rattle.rv_layout_rules.specs.Externals.{external_number, externals};
ghost use Rattle.rv_layout_rules.specs.Laid.{address_of_value, address_of_place};
ghost use Rattle.rv_layout_rules.specs.TooLarge.{first_too_large};
ghost use Rattle.rv_layout_rules.specs.Words.{target_of};
ghost use Rattle.mach_ir.specs.Acts.{external_row};
ghost use Rattle.rv_layout.specs.Tables.{words_of_labels};

use crate::source::{Source, place_address};
use bs_words::Name;
use mach_ir::{External, Label};
use rv_layout::LabelOffsets;
use rv_pieces::Piece;
use std::alloc::{AllocError, Global};

impl<'a, 'b> Source<'a, 'b> {
    /// The address of what a symbol stands for.
    fn address_of_symbol(&self, name: &Name) -> u32
        requires source { IsSource self.now }
        requires fits { first_too_large (laid_of self.now) ≡ None }
        ensures { result
            ≡ address_of_value (source_entries self.now) (value_of_symbol (tree_of self.now) name.now) }
    {
        match self.symbols.value_of(name.as_bytes()) {
            Some(value) => self.address_of_value(value) as u32,
            None => 0,
        }
    }

    /// The number of an external call in the image.
    fn number_of_call(&self, alloc: Global, row: &External) -> Result<u32, AllocError>
        requires { IsSource self.now }
        ensures { IfOk result (λ number.
            number ≡ external_number (externals (tree_of self.now)) (external_row row.now)) }
    {
        let number = self.calls.number_of(alloc, row)?;
        Ok(number as u32)
    }

    /// The address of a label of a function whose entry is this word.
    fn address_of_label(&self, labels: &LabelOffsets, entry: u64, label: Label) -> u32
        requires source { IsSource self.now }
        requires fits { first_too_large (laid_of self.now) ≡ None }
        requires low { entry + words_of_labels labels.now label ≤ self.now.places.now.end }
        ensures { result ≡ address_of_place (entry + words_of_labels labels.now label) }
    {
        place_address(entry + labels.place(label)) as u32
    }

    /// What the name of a piece stands for, of a function whose entry is this word.
    fn target_of(
        &self,
        alloc: Global,
        piece: &Piece,
        labels: &LabelOffsets,
        entry: u64,
    ) -> Result<u32, AllocError>
        requires source { IsSource self.now }
        requires fits { first_too_large (laid_of self.now) ≡ None }
        requires low { (label : ℕ) → entry + words_of_labels labels.now label ≤ self.now.places.now.end }
        ensures { IfOk result (λ target.
            target ≡ target_of (addresses_named_by self.now entry (words_of_labels labels.now)) piece.now) }
    {
        match piece {
            Piece::Known(_) => Ok(0),
            Piece::Label(_) => Ok(0),
            Piece::Branch {
                condition: _,
                left: _,
                right: _,
                label,
            } => Ok(self.address_of_label(labels, entry, *label)),
            Piece::Jump(label) => Ok(self.address_of_label(labels, entry, *label)),
            Piece::Row(label) => Ok(self.address_of_label(labels, entry, *label)),
            Piece::LabelAddress { to: _, label } => Ok(self.address_of_label(
                labels, entry, *label,
            )),
            Piece::Call(name) => Ok(self.address_of_symbol(name)),
            Piece::TailCall(name) => Ok(self.address_of_symbol(name)),
            Piece::SymbolAddress { to: _, name } => Ok(self.address_of_symbol(name)),
            Piece::ExternalNumber { to: _, row } => self.number_of_call(alloc, row),
            Piece::Descriptor(_) => Ok(0),
        }
    }

    /// What the names of pieces stand for. The only error is want of memory.
    pub fn targets_of(
        &self,
        alloc: Global,
        code: &[Piece],
        labels: &LabelOffsets,
        entry: u64,
    ) -> Result<Vec<u32>, AllocError>
        requires source { IsSource self.now }
        requires fits { first_too_large (laid_of self.now) ≡ None }
        requires low { (label : ℕ) → entry + words_of_labels labels.now label ≤ self.now.places.now.end }
        ensures { IfOk result (λ targets. targets.items ≡ map (target_of (addresses_named_by self.now entry
            (words_of_labels labels.now))) code.now) }
    {
        let mut targets = Vec::new(alloc);
        for piece in code {
            targets.push(self.target_of(alloc, piece, labels, entry)?)?;
        }
        Ok(targets)
    }
}
