//! Texts.
ghost use Rattle.std.specs.Prelude.{IfOk, IfErr};
ghost use Rattle.cmm_front.specs.FileOf.{IsFileOf, IsErrorOf, HasPlace};
ghost use Rattle.cmm_tree.specs.View.{file_view};

use bs_fault::FrontError;
use cmm_reader::read_file;
use cmm_types::check_types;
use cmm_walks::{Checked, check_addresses};
use std::alloc::Global;

/// The file of a text, checked. All faults but the image's size are looked for, and its static data has a place.
///
/// One fault is reported of a text that has any: what reading reports; else the leftmost fault of types or
/// symbols; else the first use of an address after a frame point that it was bound before.
///
/// # Errors
///
/// `Fault` exactly where the text has a fault, with that fault, and `OutOfMemory` where memory ran out
/// before that is known.
pub fn front(alloc: Global, text: &[u8]) -> Result<Checked, FrontError>
    ensures file { IfOk result (λ checked. IsFileOf text.now (file_view checked)) }
    ensures placed { IfOk result (λ checked. HasPlace (file_view checked)) }
    ensures fault { IfErr result (IsErrorOf text.now) }
{
    let file = read_file(alloc, text)?;
    let typed = check_types(alloc, file)?;
    check_addresses(alloc, typed)
}
