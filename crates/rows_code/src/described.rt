//! The lines of frame descriptors.
ghost use Rattle.lin_ir.specs.Formed.{AreLocated};

use anyhow::{Result, bail};
use frame_tables::descriptors;
use lin_ir::{Descr, Lin};
use lin_tests::{has_one_depth, is_countable, is_located, is_within};
use mach_ir::page::Page;
use std::alloc::Global;

/// A register by its name, or a slot by its offset from sp.
fn put_entry(page: &mut Page, entry: u32) -> Result<()> {
    page.put(b", ")?;
    if entry % 2 == 0 {
        page.put(b"sp+")?;
        page.put_number(u64::from(entry))?;
        return Ok(());
    }
    match u8::try_from(entry / 2) {
        Ok(register) => page.put_register(register)?,
        Err(_) => page.put(b"no register")?,
    }
    Ok(())
}

/// The number of its instruction, its size, and what is live after it.
fn put_descriptor(page: &mut Page, descriptor: &Descr) -> Result<()> {
    page.put(b"descriptor ")?;
    page.put_number(u64::from(descriptor.after))?;
    page.put(b": ")?;
    page.put_number(u64::from(descriptor.size))?;
    page.put(b" bytes")?;
    for entry in descriptor.entries.as_slice() {
        put_entry(page, *entry)?;
    }
    page.put(b"\n")?;
    Ok(())
}

/// A line for each frame descriptor of a function whose locations are colours, t0 and its slots.
fn put_located(alloc: Global, page: &mut Page, lin: &Lin) -> Result<()>
    requires { AreLocated lin.now }
{
    if !is_countable(lin) {
        bail!("some line or slot has no number");
    }
    if !has_one_depth(alloc, lin)? {
        bail!("some place has two numbers of traps");
    }
    if !is_within(alloc, lin)? {
        bail!("some frame is too large");
    }
    for descriptor in descriptors(alloc, lin)?.as_slice() {
        put_descriptor(page, descriptor)?;
    }
    Ok(())
}

/// A line for each frame descriptor of the function.
pub(crate) fn put_descriptors(alloc: Global, page: &mut Page, lin: &Lin) -> Result<()> {
    if is_located(lin) {
        put_located(alloc, page, lin)
    } else {
        bail!("some location is no colour, t0 or slot")
    }
}
