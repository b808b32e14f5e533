//! What is live at each place of Mach functions made by hand, and the functions that splitting
//! makes of them; and those that spilling makes, and splitting of these.
//!
//! What is wanted is by a reading of its own of what the terms mean: what is live by the least sets
//! that the edges allow, webs by the writes that come to each operand and their numbers by the
//! first of them, reloads by the calls that lead to a read, and stores by the reloads that a write
//! comes to.
ghost use Rattle.std.specs.Prelude.{length};
ghost use Rattle.mach_ir.specs.Sizes.{HasRoom};
ghost use Rattle.mach_tests.specs.Room.{wide};

use anyhow::{Result, bail};
use liveness::{first_free, live};
use mach_ir::page::Page;
use mach_ir::{LiveMap, Mach, text};
use mach_tests::has_room;
use spill::spill;
use split::split;
use std::alloc::Global;

/// The numbers of the registers that are live at the place.
fn put_place(page: &mut Page, live: &LiveMap, place: usize, free: u32) -> Result<()> {
    page.put(b"live at ")?;
    page.put_number(place as u64)?;
    page.put(b":")?;
    for number in 0..free {
        if live.before.contains(place, number) {
            page.put(b" ")?;
            page.put_number(u64::from(number))?;
        }
    }
    page.put(b"\n")?;
    Ok(())
}

/// The text of a function, after a word.
fn put_text(alloc: Global, page: &mut Page, word: &[u8], mach: &Mach) -> Result<()> {
    page.put(word)?;
    page.put(text(alloc, mach)?.as_slice())?;
    Ok(())
}

/// The function, what is live before each of its instructions and after the last, and the split
/// function.
pub(crate) fn put_split(alloc: Global, page: &mut Page, mach: Mach) -> Result<()>
    requires { HasRoom (wide (length mach.params)) mach }
{
    put_text(alloc, page, b"", &mach)?;
    let free = first_free(&mach);
    let live = live(alloc, &mach)?;
    for place in 0..=mach.code.len() {
        put_place(page, &live, place, free)?;
    }
    let made = split(alloc, mach)?;
    put_text(alloc, page, b"split ", &made)
}

/// What splitting makes of a spilled function.
fn put_both(alloc: Global, page: &mut Page, spilled: Mach) -> Result<()>
    requires { HasRoom (wide (length spilled.params)) spilled }
{
    let made = split(alloc, spilled)?;
    put_text(alloc, page, b"spilled and split ", &made)
}

/// The function, what spilling makes of it, and what splitting makes of that.
pub(crate) fn put_spilled(alloc: Global, page: &mut Page, mach: Mach) -> Result<()>
    requires { HasRoom (wide (length mach.params)) mach }
{
    put_text(alloc, page, b"", &mach)?;
    let spilled = spill(alloc, mach)?;
    put_text(alloc, page, b"spilled ", &spilled)?;
    if has_room(&spilled) {
        put_both(alloc, page, spilled)
    } else {
        bail!("no room for what splitting makes")
    }
}
