//! The text of the frame descriptors.
ghost use Rattle.std.specs.Prelude.{◌≡◌, ◌<◌, ◌^◌, ℕ, map, IfOk};
ghost use Rattle.std.specs.List.{AllByRecursion, flat_map};
ghost use Rattle.bs_words.specs.Contents.{contents};
ghost use Rattle.mach_ir.specs.Pages.{AddsText};
ghost use Rattle.image_form.specs.Image.{IsImage, IsEntry, IsDesc};
ghost use Rattle.image_form.specs.Tables.{desc, tables};
ghost use Rattle.image_listings.specs.Texts.{entry_text, entries_text, desc_line, frames_text};

use crate::digits::put_eight_digits;
use bs_words::List;
use image_form::{DescRow, Image};
use mach_ir::page::Page;
use rv_machine::CODE_START;
use std::alloc::{AllocError, Global};

/// The frame descriptors of an image, in its order, a line for each: the return address, the bytes of the frame,
/// and the entries. It fails only if memory runs out.
pub fn frames_text(alloc: Global, image: &Image) -> Result<List<u8>, AllocError>
    requires { IsImage image.now }
    ensures { IfOk result (λ text. contents text ≡ frames_text (tables image.now)) }
{
    let mut page = Page::new(alloc);
    put_lines(&mut page, image.descs.as_slice())?;
    Ok(List::from_vec(page.bytes))
}

fn put_lines(page: &mut Page, rows: &[DescRow]) -> Result<(), AllocError>
    requires { (version : ℕ) × (limit : ℕ)
        × AllByRecursion (IsDesc version limit) (map desc rows.now)
        × limit < 2 ^ 31 }
    ensures { IfOk result (λ _. AddsText page.old page.new (flat_map desc_line (map desc rows.now))) }
{
    for row in rows {
        put_line(page, row)?;
    }
    Ok(())
}

#[tactic(auto, unfolding(crate::specs::Texts::desc_line))]
fn put_line(page: &mut Page, row: &DescRow) -> Result<(), AllocError>
    requires near { row.now.after < 2 ^ 31 }
    requires entries { AllByRecursion (IsEntry row.now.size) (contents row.now.entries) }
    ensures { IfOk result (λ _. AddsText page.old page.new (desc_line (desc row.now))) }
{
    put_eight_digits(page, CODE_START as u32 + row.after)?;
    page.put(b" ")?;
    page.put_number(u64::from(row.size))?;
    put_entries(page, row.entries.as_slice())?;
    page.put(b"\n")
}

fn put_entries(page: &mut Page, entries: &[u32]) -> Result<(), AllocError>
    requires { (size : ℕ) × AllByRecursion (IsEntry size) entries.now }
    ensures { IfOk result (λ _. AddsText page.old page.new (entries_text entries.now)) }
{
    for entry in entries {
        page.put(b" ")?;
        put_entry(page, *entry)?;
    }
    Ok(())
}

#[tactic(auto, unfolding(crate::specs::Texts::entry_text))]
fn put_entry(page: &mut Page, entry: u32) -> Result<(), AllocError>
    requires { (size : ℕ) × IsEntry size entry }
    ensures { IfOk result (λ _. AddsText page.old page.new (entry_text entry)) }
{
    if entry % 2 == 1 {
        page.put_register((entry / 2) as u8)
    } else {
        page.put_slot(entry)
    }
}
