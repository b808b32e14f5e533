//! The rows of functions.
ghost use Rattle.std.specs.Prelude.{◌≡◌, ◌+◌, ◌*◌, ◌<◌, ◌^◌, None, map, IfOk};
ghost use Rattle.assemble.specs.Source.{IsSource, laid_of};
ghost use Rattle.bs_words.specs.Contents.{contents};
ghost use Rattle.cmm_tree.specs.View.{function_view, params_view};
ghost use Rattle.cmm_tree.specs.Tree.{comps_of};
ghost use Rattle.cmm_types.specs.Typing.{IsFunctionAnnotated};
ghost use Rattle.function_places.specs.Places.{IsLaidFunction};
ghost use Rattle.image_form.specs.Tables.{func};
ghost use Rattle.rv_layout_rules.specs.Forms.{total_words as words_in};
ghost use Rattle.rv_layout_rules.specs.Laid.{row_at};
ghost use Rattle.rv_layout_rules.specs.TooLarge.{first_too_large};

use crate::source::Source;
use bs_words::{Comp, List, Name};
use cmm_tree::{Function, Item, Param};
use cmm_types::result_of;
use function_places::Laid;
use image_form::FuncRow;
use image_form::limits::STUB_WORDS;
use rv_pieces::Pieces;
use std::alloc::{AllocError, Global};

fn comps_of(alloc: Global, params: &[Param]) -> Result<List<Comp>, AllocError>
    ensures { IfOk result (λ comps. contents comps ≡ map (λ p. p.comp) (params_view params.now)) }
{
    let mut comps = Vec::new(alloc);
    for param in params {
        comps.push(param.comp)?;
    }
    Ok(List::from_vec(comps))
}

/// The row of a function whose entry is this word.
fn row(
    alloc: Global,
    function: &Function,
    pieces: &Pieces,
    laid: &Laid,
    entry: u64,
) -> Result<FuncRow, AllocError>
    requires annotated { IsFunctionAnnotated function.now }
    requires laid { IsLaidFunction pieces.now laid.now }
    requires inside { 4 * (entry + words_in pieces.now.code laid.now.forms.items) < 2 ^ 32 }
    ensures { IfOk result (λ row. func row
        ≡ row_at entry (function_view function.now) pieces.now laid.now.forms.items) }
{
    Ok(FuncRow {
        name: Name::from_vec(Vec::from_slice(alloc, function.name.as_bytes())?),
        offset: (4 * entry) as u32,
        words: laid.words as u32,
        frame: pieces.frame,
        params: comps_of(alloc, function.params.as_slice())?,
        result: result_of(function.body.ty),
    })
}

impl<'a, 'b> Source<'a, 'b> {
    /// The rows of the functions, in the order of the text. The only error is want of memory.
    pub fn rows(&self, alloc: Global) -> Result<List<FuncRow>, AllocError>
        requires source { IsSource self.now }
        requires fits { first_too_large (laid_of self.now) ≡ None }
        ensures { IfOk result (λ rows. map func (contents rows) ≡ (laid_of self.now).funcs) }
    {
        let mut rows = Vec::with_capacity(alloc, self.pieces.len())?;
        let mut entry = STUB_WORDS;
        let mut next: usize = 0;
        for item in self.file.items.as_slice() {
            match item {
                Item::Function(function) => {
                    let pieces = &self.pieces[next];
                    let laid = &self.places.forms[next];
                    rows.push(row(alloc, function, pieces, laid, entry)?)?;
                    entry += laid.words;
                    next += 1;
                }
                Item::Data(_) => {}
            }
        }
        Ok(List::from_vec(rows))
    }
}
