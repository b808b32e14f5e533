//! The words of the code, and the descriptors.
ghost use Rattle.std.specs.Prelude.{◌≡◌, ◌+◌, ◌<◌, ◌≤◌, ◌^◌, ◌++◌, None, length, map, IfOk, OnOk};
ghost use Rattle.std.specs.List.{flat_map};
ghost use Rattle.assemble.specs.Code.{IsCodeAt};
ghost use Rattle.assemble.specs.Source.{IsSource, laid_of, tree_of, source_entries};
ghost use Rattle.fork_join.specs.Calls.{AreGiven};
ghost use Rattle.function_places.specs.Places.{size_of};
ghost use Rattle.image_form.specs.Image.{stub};
ghost use Rattle.image_form.specs.Tables.{desc};
ghost use Rattle.rv_layout_rules.specs.Conditions.{IsFunctionLaid};
ghost use Rattle.rv_layout_rules.specs.Forms.{total_words};
ghost use Rattle.rv_layout_rules.specs.Laid.{function_words};
ghost use Rattle.rv_layout_rules.specs.TooLarge.{first_too_large};

use crate::source::{Source, place_address};
use fork_join::map_in_halves;
use image_form::DescRow;
use image_form::limits::STUB;
use rv_layout::{LabelOffsets, Placed, label_bound, put_descs, put_words};
use rv_layout_rules::Form;
use rv_pieces::Pieces;
use std::alloc::{AllocError, Global};
use std::thread::Threads;

/// The words and the descriptors of one function, or of all.
#[derive(Drop)]
pub struct Code {
    /// The words, in order: those of all begin with the stub.
    pub words: Vec<u32>,
    /// The frame descriptors, in the order of the code.
    pub descs: Vec<DescRow>,
}

impl<'a, 'b> Source<'a, 'b> {
    /// Puts the words of a function whose entry is this word.
    fn put_function(
        &self,
        alloc: Global,
        words: &mut Vec<u32>,
        function: &Pieces,
        forms: &[Form],
        entry: u64,
    ) -> Result<(), AllocError>
        requires source { IsSource self.now }
        requires fits { first_too_large (laid_of self.now) ≡ None }
        requires laid { IsFunctionLaid (tree_of self.now) function.now }
        requires few { size_of function.now < 2 ^ 48 }
        requires same { length forms.now ≡ length function.now.code }
        requires inside { entry + total_words function.now.code forms.now ≤
            self.now.places.now.end }
        ensures { OnOk result (words.new.items
            ≡ words.old.items ++ function_words (tree_of self.now)
            (source_entries self.now) entry function.now.code forms.now) }
    {
        let code = function.code.as_slice();
        let labels = LabelOffsets::of(alloc, code, forms, label_bound(code))?;
        let targets = self.targets_of(alloc, code, &labels, entry)?;
        let placed = Placed {
            code,
            forms,
            targets: targets.as_slice(),
        };
        put_words(words, &placed, place_address(entry))
    }

    /// The code of the function of this number.
    fn function_code(&self, alloc: Global, index: usize) -> Result<Code, AllocError>
        requires source { IsSource self.now }
        requires fits { first_too_large (laid_of self.now) ≡ None }
        requires there { index < length self.now.pieces.now }
        ensures { IfOk result (IsCodeAt self.now index) }
    {
        let function = &self.pieces[index];
        let laid = &self.places.forms[index];
        let forms = laid.forms.as_slice();
        let entry = self.places.entries[index];
        let mut words = Vec::with_capacity(alloc, laid.words as usize)?;
        self.put_function(alloc, &mut words, function, forms, entry)?;
        let mut descs = Vec::new(alloc);
        put_descs(alloc, &mut descs, function.code.as_slice(), forms, entry)?;
        Ok(Code { words, descs })
    }
}

/// The code of each function, in their order.
fn each_code<R: Threads + Sync>(
    rt: &R,
    alloc: Global,
    source: &Source<'_, '_>,
    work: &[u32],
    jobs: u32,
) -> Result<Vec<Code>, AllocError>
    requires jobs { 1 ≤ jobs }
    requires same { length work.now ≡ length source.now.pieces.now }
    requires source { IsSource source.now }
    requires fits { first_too_large (laid_of source.now) ≡ None }
    ensures { IfOk result (λ all.
        AreGiven (IsCodeAt source.now) 0 (length source.now.pieces.now) all.items) }
{
    let code_at = |index: u32| -> Result<Code, AllocError>
        requires { (index < length source.now.pieces.now) × IsSource source.now
            × (first_too_large (laid_of source.now) ≡ None) }
        ensures { IfOk result (IsCodeAt source.entry.now index) }
    { source.function_code(alloc, index as usize) };
    map_in_halves(rt, alloc, work, jobs, &code_at)
}

/// The stub with the code of all functions after it, of so many words in all.
fn joined(alloc: Global, parts: Vec<Code>, count: u64) -> Result<Code, AllocError>
    ensures words { IfOk result (λ code.
        code.words.items ≡ stub ++ flat_map (λ part. part.words.items) parts.items) }
    ensures descs { IfOk result (λ code. map desc code.descs.items
        ≡ flat_map (λ part. map desc part.descs.items) parts.items) }
{
    let mut words = Vec::with_capacity(alloc, count as usize)?;
    words.extend_from_slice(&STUB)?;
    let mut descs = Vec::new(alloc);
    for part in parts {
        let Code {
            words: own_words,
            descs: mut own_descs,
        } = part;
        words.extend_from_slice(own_words.as_slice())?;
        descs.append(&mut own_descs)?;
    }
    Ok(Code { words, descs })
}

/// The code: the stub, and the functions in order. The only error is want of memory.
pub fn all_code<R: Threads + Sync>(
    rt: &R,
    alloc: Global,
    source: &Source<'_, '_>,
    work: &[u32],
    jobs: u32,
) -> Result<Code, AllocError>
    requires jobs { 1 ≤ jobs }
    requires same { length work.now ≡ length source.now.pieces.now }
    requires source { IsSource source.now }
    requires fits { first_too_large (laid_of source.now) ≡ None }
    ensures words { IfOk result (λ code. code.words.items ≡ (laid_of source.now).code) }
    ensures descs { IfOk result (λ code. map desc code.descs.items ≡ (laid_of source.now).descs) }
{
    let parts = each_code(rt, alloc, source, work, jobs)?;
    let code = joined(alloc, parts, source.places.end)?;
    Ok(code)
}
