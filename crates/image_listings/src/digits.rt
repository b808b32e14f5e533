//! Numbers in hexadecimal digits.
ghost use Rattle.std.specs.Prelude.{◌≡◌, ◌<◌, false, IfOk};
ghost use Rattle.std.specs.Fmt.{digit_glyph};
ghost use Rattle.mach_ir.specs.Pages.{AddsText};
ghost use Rattle.image_listings.specs.Texts.{last_digits, eight_digits};

use mach_ir::page::Page;
use std::alloc::AllocError;

/// The digit of a number below 16, a small letter from 10 on.
fn digit(number: u8) -> u8
    requires { number < 16 }
    ensures { result ≡ digit_glyph false number }
{
    if number < 10 {
        b'0' + number
    } else {
        b'a' + (number - 10)
    }
}

/// The last `count` digits of a number.
fn put_last_digits(page: &mut Page, count: u8, number: u32) -> Result<(), AllocError>
    ensures { IfOk result (λ _. AddsText page.old page.new (last_digits count number)) }
{
    if count > 0 {
        put_last_digits(page, count - 1, number / 16)?;
        page.put(&[digit((number % 16) as u8)])?;
    }
    Ok(())
}

/// A number in eight digits.
#[tactic(auto, unfolding(crate::specs::Texts::eight_digits))]
pub(crate) fn put_eight_digits(page: &mut Page, number: u32) -> Result<(), AllocError>
    ensures { IfOk result (λ _. AddsText page.old page.new (eight_digits number)) }
{
    put_last_digits(page, 8, number)
}
