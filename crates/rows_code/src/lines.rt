//! Mach functions made by hand, each lowered and then made tidy, with the frame descriptors of
//! both.
//!
//! What is wanted is from the rules alone, by hand: each instruction with its lines, which of these
//! have no use, and for each frame point the bytes of frame and traps, and what is read as val
//! after it before it is written, from where control goes on or from the entry of the innermost
//! handler.
use crate::described::put_descriptors;
use crate::numbered::is_numbered;
use anyhow::{Result, bail};
use lin_ir::{Lin, text};
use lin_tidy::tidy;
use linearise::lower;
use mach_ir::Mach;
use mach_ir::page::Page;
use std::alloc::Global;

/// The lines and frame descriptors of a function, after a word.
fn put_described(alloc: Global, page: &mut Page, word: &[u8], lin: &Lin) -> Result<()> {
    page.put(word)?;
    page.put(text(alloc, lin)?.as_slice())?;
    put_descriptors(alloc, page, lin)
}

/// The lines and frame descriptors of the function as it is lowered, and as it is tidy.
pub(crate) fn put(alloc: Global, page: &mut Page, mach: &Mach) -> Result<()> {
    if !linearise::has_room(alloc, mach)? {
        bail!("no room for slots");
    }
    let lowered = lower(alloc, mach)?;
    put_described(alloc, page, b"", &lowered)?;
    if !is_numbered(&lowered) {
        bail!("some location has no number");
    }
    if !lin_tidy::has_room(&lowered) {
        bail!("no room for lines");
    }
    let tidied = tidy(alloc, lowered)?;
    put_described(alloc, page, b"tidy ", &tidied)
}
