//! The image of a file.
ghost use Rattle.std.specs.Prelude.{◌≡◌, ◌≤◌, None, Some, Err, IfOk, length, map};
ghost use Rattle.assemble.specs.Source.{IsSource, laid_of, tree_of};
ghost use Rattle.bs_fault.specs.declared.large.Large.{Large};
ghost use Rattle.bs_words.specs.Contents.{contents};
ghost use Rattle.cmm_data.specs.Map.{IsMapOf};
ghost use Rattle.cmm_tree.specs.View.{file_view};
ghost use Rattle.image_form.specs.Image.{IsImage};
ghost use Rattle.image_form.specs.Tables.{Tables, tables, ext};
ghost use Rattle.rv_layout_rules.specs.Conditions.{CanBeLaid};
ghost use Rattle.rv_layout_rules.specs.Externals.{externals};
ghost use Rattle.rv_layout_rules.specs.Laid.{IsLaidOut};
ghost use Rattle.rv_layout_rules.specs.TooLarge.{first_too_large};

use crate::code::all_code;
use crate::source::Source;
use bs_fault::BuildError;
use bs_words::List;
use cmm_data::{DataMap, SymbolTable};
use cmm_types::Typed;
use external_rows::external_rows;
use function_places::{Places, work_of};
use image_form::{ExtRow, Image};
use rv_layout::too_large;
use rv_pieces::Pieces;
use std::alloc::{AllocError, Global};
use std::thread::Threads;

impl<'a, 'b> Source<'a, 'b> {
    /// The image, whose sections keep their limits. `calls` are the rows of the external calls.
    fn image<R: Threads + Sync>(
        &self,
        rt: &R,
        alloc: Global,
        calls: List<ExtRow>,
        work: &[u32],
        jobs: u32,
    ) -> Result<Image, AllocError>
        requires jobs { 1 ≤ jobs }
        requires same { length work.now ≡ length self.now.pieces.now }
        requires source { IsSource self.now }
        requires calls { map ext (contents calls) ≡ externals (tree_of self.now) }
        requires fits { first_too_large (laid_of self.now) ≡ None }
        ensures { IfOk result (λ image. tables image ≡ laid_of self.now) }
    {
        let code = all_code(rt, alloc, self, work, jobs)?;
        Ok(Image {
            version: 2,
            funcs: self.rows(alloc)?,
            code: List::from_vec(code.words),
            bytes: self.bytes(alloc)?,
            syms: self.syms(alloc)?,
            roots: self.roots(alloc)?,
            extcs: calls,
            descs: List::from_vec(code.descs),
        })
    }
}

/// The image of a file, whose functions are these pieces, in the order of its text: the stub and the
/// functions' words, each branch in the least form that reaches; the static data; the external calls in
/// the order of their first use; the descriptors. It is of version 2.
///
/// `placed` is the file's static data at its place. The functions are shared among so many jobs.
///
/// # Errors
///
/// `TooLarge` exactly where a section of that image passes its limit, with the first such section and
/// the bytes that its body would have; no word of code is made before that is known. `OutOfMemory` where
/// memory runs out.
pub fn assemble<'a, R: Threads + Sync>(
    rt: &R,
    alloc: Global,
    pieces: &'a [Pieces],
    typed: &'a Typed,
    placed: &'a DataMap,
    jobs: u32,
) -> Result<Image, BuildError>
    requires jobs { 1 ≤ jobs }
    requires placed { IsMapOf (file_view typed.now) placed.now }
    requires can { CanBeLaid (file_view typed.now) pieces.now }
    ensures laid { IfOk result (λ image.
        IsLaidOut (file_view typed.now) pieces.now (tables image)) }
    ensures is_image { IfOk result IsImage }
    ensures fits { IfOk result (λ image. first_too_large (tables image) ≡ None) }
    ensures large { (large : Large)
        → result ≡ Err (BuildError.TooLarge large)
        → (t : Tables)
        × (IsLaidOut (file_view typed.now) pieces.now t
        × (first_too_large t ≡ Some large)) }
{
    let file = typed.file();
    let symbols = SymbolTable::of_file(alloc, file)?;
    let calls = external_rows(alloc, file)?;
    let rows = calls.to_list(alloc)?;
    let work = work_of(alloc, pieces)?;
    let places = Places::of(rt, alloc, pieces, work.as_slice(), jobs)?;
    let source = Source {
        file,
        data: placed,
        symbols: &symbols,
        calls: &calls,
        pieces,
        places: &places,
    };
    if let Some(large) = too_large(&source.sizes(rows.as_slice())) {
        return Err(BuildError::TooLarge(large));
    }
    let image = source.image(rt, alloc, rows, work.as_slice(), jobs)?;
    Ok(image)
}
