//! The text of the words of code.
ghost use Rattle.std.specs.Prelude.{◌≡◌, ◌<◌, ◌+◌, ◌*◌, ◌^◌, length, IfOk};
ghost use Rattle.bs_words.specs.Contents.{contents};
ghost use Rattle.mach_ir.specs.Pages.{AddsText};
ghost use Rattle.image_form.specs.Image.{IsImage};
ghost use Rattle.image_form.specs.Tables.{tables};
ghost use Rattle.image_listings.specs.Texts.{word_line, words_text, code_text};

use crate::digits::put_eight_digits;
use bs_words::List;
use image_form::Image;
use mach_ir::page::Page;
use rv_machine::CODE_START;
use std::alloc::{AllocError, Global};

/// The words of the code of an image, a line for each: its address and the word. It fails only if memory runs
/// out.
pub fn code_text(alloc: Global, image: &Image) -> Result<List<u8>, AllocError>
    requires { IsImage image.now }
    ensures { IfOk result (λ text. contents text ≡ code_text (tables image.now)) }
{
    let mut page = Page::new(alloc);
    put_words(&mut page, CODE_START as u32, image.code.as_slice())?;
    Ok(List::from_vec(page.bytes))
}

/// The words from an address on.
fn put_words(page: &mut Page, start: u32, words: &[u32]) -> Result<(), AllocError>
    requires { start + 4 * length words.now < 2 ^ 32 }
    ensures { IfOk result (λ _. AddsText page.old page.new (words_text start words.now)) }
{
    let mut address = start;
    for word in words {
        put_word(page, address, *word)?;
        address += 4;
    }
    Ok(())
}

#[tactic(auto, unfolding(crate::specs::Texts::word_line))]
fn put_word(page: &mut Page, address: u32, word: u32) -> Result<(), AllocError>
    ensures { IfOk result (λ _. AddsText page.old page.new (word_line address word)) }
{
    put_eight_digits(page, address)?;
    page.put(b" ")?;
    put_eight_digits(page, word)?;
    page.put(b"\n")
}
