//! Frames of the stack.
ghost use Rattle.std.specs.Prelude.{◌≡◌, ◌≤◌, ◌<◌, map, option_map};
ghost use Rattle.std.specs.Option.{option_copied};
ghost use Rattle.std.specs.List.{list_all};
ghost use Rattle.bs_words.specs.Contents.{contents};
ghost use Rattle.image_form.specs.Image.{IsImage};
ghost use Rattle.image_form.specs.Tables.{desc};
ghost use Rattle.rv_machine.specs.Frames.{descriptor_at, is_frame, is_stack_word, names_register, slots_named};

use image_form::{DescRow, Image};
use rv_machine::CODE_START;

/// The end of the stack's region.
pub const STACK_END: u64 = 0x4000_0000;

/// The descriptor of a return address. It is found by halves, since return offsets rise.
pub fn descriptor_of(image: &Image, address: u64) -> Option<&DescRow>
    requires { IsImage image.now }
    ensures { option_map desc (option_copied result)
        ≡ descriptor_at (map desc (contents image.now.descs)) address }
{
    let rows = image.descs.as_slice();
    let mut low = 0;
    let mut high = rows.len();
    while low < high {
        let middle = low + (high - low) / 2;
        let row = &rows[middle];
        let there = CODE_START + u64::from(row.after);
        if there == address {
            return Some(row);
        }
        if there < address {
            low = middle + 1;
        } else {
            high = middle;
        }
    }
    None
}

/// Whether a frame lies in the stack, and names registers only where it is the first.
pub fn is_frame(base: u64, first: bool, at: u64, row: &DescRow) -> bool
    requires { 8 ≤ row.now.size }
    ensures { result ≡ is_frame first base at (desc row.now) }
{
    if !first && names_register(row.entries.as_slice()) {
        return false;
    }
    is_stack_word(base, bs_words::add(at, u64::from(row.size) - 8))
        && are_stack_words(base, at, row.entries.as_slice())
}

// A word of the stack is 8 bytes at a multiple of 8 that lie whole in the stack's region.
fn is_stack_word(base: u64, address: u64) -> bool
    ensures { result ≡ is_stack_word base address }
{
    address % 8 == 0 && base <= address && address <= STACK_END - 8
}

fn names_register(entries: &[u32]) -> bool
    ensures { result ≡ names_register entries.now }
{
    for entry in entries {
        if entry % 2 == 1 {
            return true;
        }
    }
    false
}

fn are_stack_words(base: u64, at: u64, entries: &[u32]) -> bool
    ensures { result ≡ list_all (is_stack_word base) (slots_named at entries.now) }
{
    for entry in entries {
        if entry % 2 == 0 && !is_stack_word(base, bs_words::add(at, u64::from(*entry))) {
            return false;
        }
    }
    true
}
