//! Where functions begin, and in which forms their pieces are laid.
ghost use Rattle.std.specs.Prelude.{◌≡◌, ◌*◌, ◌<◌, ◌≤◌, ◌^◌, length, sum_by, IfOk};
ghost use Rattle.std.specs.List.{AllZip};
ghost use Rattle.function_places.specs.Places.{ArePlaces, IsLaidFunction, IsLaidAt, size_of};
ghost use Rattle.rv_layout_rules.specs.Forms.{total_words};

use crate::sizes::code_size;
use fork_join::map_in_halves;
use image_form::limits::STUB_WORDS;
use rv_layout::{forms_of, words_of};
use rv_layout_rules::Form;
use rv_pieces::{Piece, Pieces};
use std::alloc::{AllocError, Global};
use std::thread::Threads;

/// What is known of a function alone before any word is made.
#[derive(Drop)]
pub struct Laid {
    /// The forms of its pieces.
    pub forms: Vec<Form>,
    /// Its words.
    pub words: u64,
    /// The bytes of its descriptors.
    pub descs: u64,
}

/// What is known of the functions of a file before any word is made.
#[derive(Drop)]
pub struct Places {
    /// Each function alone.
    pub forms: Vec<Laid>,
    /// The words of code before each function.
    pub entries: Vec<u64>,
    /// The words of the whole code.
    pub end: u64,
}

/// The words of pieces in their forms.
fn total_words(code: &[Piece], forms: &[Form]) -> u64
    requires few { length code.now < 2 ^ 48 }
    requires same { length forms.now ≡ length code.now }
    ensures exact { result ≡ total_words code.now forms.now }
    ensures most { result ≤ 3 * length code.now }
{
    let mut words: u64 = 0;
    for index in 0..code.len() {
        words += words_of(&code[index], forms[index]);
    }
    words
}

/// How much work the functions are: each as much as it has pieces.
/// The only error is want of memory.
pub fn work_of(alloc: Global, pieces: &[Pieces]) -> Result<Vec<u32>, AllocError>
    ensures { IfOk result (λ work. length work.items ≡ length pieces.now) }
{
    let mut work = Vec::with_capacity(alloc, pieces.len())?;
    for function in pieces {
        work.push(function.code.len().min(u32::MAX as usize) as u32)?;
    }
    Ok(work)
}

/// A function laid out by itself.
fn laid_out(alloc: Global, function: &Pieces) -> Result<Laid, AllocError>
    requires { size_of function.now < 2 ^ 48 }
    ensures { IfOk result (IsLaidFunction function.now) }
{
    let code = function.code.as_slice();
    let forms = forms_of(alloc, code)?;
    let words = total_words(code, forms.as_slice());
    let descs = code_size(code);
    Ok(Laid {
        forms,
        words,
        descs,
    })
}

/// Each function laid out by itself.
fn all_laid<R: Threads + Sync>(
    rt: &R,
    alloc: Global,
    pieces: &[Pieces],
    work: &[u32],
    jobs: u32,
) -> Result<Vec<Laid>, AllocError>
    requires jobs { 1 ≤ jobs }
    requires numbers { length pieces.now < 2 ^ 32 }
    requires same { length work.now ≡ length pieces.now }
    requires few { sum_by size_of pieces.now < 2 ^ 48 }
    ensures { IfOk result (λ all. AllZip IsLaidFunction pieces.now all.items) }
{
    let laid_at = |index: u32| -> Result<Laid, AllocError>
        requires { (index < length pieces.now) × (sum_by size_of pieces.now < 2 ^ 48) }
        ensures { IfOk result (IsLaidAt pieces.entry.now index) }
    { laid_out(alloc, &pieces[index as usize]) };
    map_in_halves(rt, alloc, work, jobs, &laid_at)
}

impl Places {
    /// The places of functions that are after the stub, in order. `work` is how much work each function
    /// is (`work_of`); they are laid out by so many jobs. The only error is want of memory.
    pub fn of<R: Threads + Sync>(
        rt: &R,
        alloc: Global,
        pieces: &[Pieces],
        work: &[u32],
        jobs: u32,
    ) -> Result<Places, AllocError>
        requires jobs { 1 ≤ jobs }
        requires numbers { length pieces.now < 2 ^ 32 }
        requires same { length work.now ≡ length pieces.now }
        requires few { sum_by size_of pieces.now < 2 ^ 48 }
        ensures { IfOk result (ArePlaces pieces.now) }
    {
        let forms = all_laid(rt, alloc, pieces, work, jobs)?;
        let mut entries = Vec::with_capacity(alloc, pieces.len())?;
        let mut at = STUB_WORDS;
        let functions = forms.as_slice();
        for function in functions {
            entries.push(at)?;
            at += function.words;
        }
        Ok(Places {
            forms,
            entries,
            end: at,
        })
    }
}
