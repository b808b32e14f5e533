//! What `assemble` says to pieces of one function with so many frame descriptors, each of so many
//! entries.
//!
//! A row has both numbers. What is shown is the line of the section that is too large, or `fits`.
//! The wanted lines were counted by hand: a descriptor has 12 bytes and 4 for each entry, the table
//! 4 more, and at most 67,108,864.
ghost use Rattle.cmm_front.specs.FileOf.{HasPlace};
ghost use Rattle.cmm_tree.specs.View.{file_view};
ghost use Rattle.rv_layout_rules.specs.Conditions.{CanBeLaid};

use crate::counted::count_functions;
use crate::large_pieces::pieces_of;
use anyhow::{Result, bail};
use assemble::assemble;
use bs_fault::{BuildError, FrontError, large_text};
use cmm_data::place_data;
use cmm_front::front;
use cmm_walks::Checked;
use rv_pieces::Pieces;
use std::alloc::{AllocError, Global};
use std::io::Write;
use std::thread::Threads;

/// A text of one function.
const TEXT: &str = "(function \"f\" () [])";

/// What is said to so many descriptors.
fn told<R: Threads + Sync>(
    rt: &R,
    alloc: Global,
    points: u32,
    entries: u32,
) -> Result<Vec<u8>, AllocError> {
    let checked = match front(alloc, TEXT.as_bytes()) {
        Ok(checked) => checked,
        Err(FrontError::Fault(_)) => return b"no file\n".to_vec(alloc),
        Err(FrontError::OutOfMemory) => return Err(AllocError),
    };
    let pieces = pieces_of(alloc, points, entries)?;
    if count_functions(checked.typed().file().items.as_slice()) != 1 {
        return b"no function\n".to_vec(alloc);
    }
    answer(rt, alloc, &checked, &[pieces])
}

/// The answer to these pieces of the functions of a file.
fn answer<R: Threads + Sync>(
    rt: &R,
    alloc: Global,
    checked: &Checked,
    pieces: &[Pieces],
) -> Result<Vec<u8>, AllocError>
    requires placed { HasPlace (file_view checked.now) }
    requires can { CanBeLaid (file_view checked.now) pieces.now }
{
    let placed = place_data(alloc, checked.typed().file())?;
    match assemble(rt, alloc, pieces, checked.typed(), &placed, 1) {
        Ok(_) => b"fits\n".to_vec(alloc),
        Err(BuildError::TooLarge(large)) => Ok(large_text(alloc, &large)?.into_vec()),
        Err(BuildError::OutOfMemory) => b"no memory\n".to_vec(alloc),
    }
}

/// Puts what is said to a row.
pub(crate) fn put<R: Threads + Sync, W: Write>(
    rt: &R,
    alloc: Global,
    out: &mut W,
    row: &str,
) -> Result<()> {
    let Some((points, entries)) = row.split_once(' ') else {
        bail!("no entries: {row}");
    };
    let points = points.parse::<u32>()?;
    let entries = entries.parse::<u32>()?;
    out.write_all(told(rt, alloc, points, entries)?.as_slice())?;
    Ok(())
}
