//! The words of a function.
ghost use Rattle.std.specs.Prelude.{◌≡◌, ◌+◌, ◌*◌, ◌%◌, ◌<◌, ◌^◌, ◌++◌, length, OnOk};
ghost use Rattle.std.specs.List.{AllByRecursion};
ghost use Rattle.rv_layout_rules.specs.Conditions.{AllLead};
ghost use Rattle.rv_pieces.specs.Named.{PieceFits};
ghost use Rattle.rv_layout_rules.specs.Forms.{total_words};
ghost use Rattle.rv_layout_rules.specs.Words.{words_to};

use crate::forms::words_of;
use crate::instructions::put_piece;
use rv_layout_rules::Form;
use rv_pieces::Piece;
use std::alloc::AllocError;

/// Pieces in their forms, with what the name of each stands for: an address, or the number of an
/// external call.
#[derive(Clone, Copy)]
pub struct Placed<'a> {
    /// The pieces, in order.
    pub code: &'a [Piece],
    /// The form of each piece.
    pub forms: &'a [Form],
    /// For each piece what its name stands for.
    pub targets: &'a [u32],
}

/// Puts the words of pieces, the first of which is at an address. The only error is want of memory.
pub fn put_words(words: &mut Vec<u32>, placed: &Placed, from: u64) -> Result<(), AllocError>
    requires forms { length placed.now.forms.now ≡ length placed.now.code.now }
    requires targets { length placed.now.targets.now ≡ length placed.now.code.now }
    requires fits { AllByRecursion PieceFits placed.now.code.now }
    requires leads { AllLead placed.now.targets.now placed.now.code.now }
    requires aligned { from % 4 ≡ 0 }
    requires inside { from + 4 * total_words placed.now.code.now placed.now.forms.now + 4 < 2 ^ 32 }
    ensures { OnOk result (words.new.items ≡ words.old.items
        ++ words_to from placed.now.targets.now placed.now.code.now placed.now.forms.now) }
{
    let code = placed.code;
    let forms = placed.forms;
    let targets = placed.targets;
    let mut at = from;
    for index in 0..code.len() {
        let piece = &code[index];
        let form = forms[index];
        put_piece(words, piece, form, at, targets[index])?;
        at += 4 * words_of(piece, form);
    }
    Ok(())
}
