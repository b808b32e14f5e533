//! What the frames of the stack name, and whether it may be there.
ghost use Rattle.std.specs.Prelude.{◌≡◌, ◌≤◌, ◌<◌, ◌&&◌, true, cond, map, option_map, slice_index};
ghost use Rattle.std.specs.List.{list_all};
ghost use Rattle.bs_words.specs.Contents.{contents};
ghost use Rattle.image_form.specs.Image.{IsImage};
ghost use Rattle.image_form.specs.Tables.{desc, tables};
ghost use Rattle.rv_machine.specs.Relocation.{is_in_code, is_in_data};
ghost use Rattle.rv_machine.specs.Frames.{frames_from, most_frames, registers_named, slots_named};
ghost use Rattle.rv_machine.specs.Memory.{memory_word};
ghost use Rattle.alloc_service.specs.Forward.{root_by, roots_by};
ghost use Rattle.alloc_service.specs.Surveyed.{stack_of};

use crate::stack::{STACK_END, descriptor_of, is_frame};
use bs_words::DATA_START;
use image_form::{DescRow, Image};
use rv_machine::{CODE_START, Memory, Table};

/// What is on the stack.
#[derive(Clone, Copy)]
pub enum Stack {
    /// It does not read as frames.
    NoFrames,
    /// A frame names what may not be there.
    BadRoot,
    /// All that the frames name may be there.
    Fine,
}

/// What is on the stack: the frames are those from a return address and a stack pointer on.
pub fn survey(
    image: &Image,
    table: &Table,
    base: u64,
    registers: &[u64; 32],
    memory: &Memory,
    address: u64,
    sp: u64,
) -> Stack
    requires image { IsImage image.now }
    requires base { base ≤ 0x40000000 }
    ensures { result ≡ stack_of (option_map
        (roots_by (root_by (tables image.now) table.now) registers.now memory.now true)
        (frames_from (most_frames base)
        (map desc (contents image.now.descs)) base memory.now true address sp)) }
{
    let mut most = (STACK_END - base) / 16 + 1;
    let mut first = true;
    let mut address = address;
    let mut at = sp;
    let mut fine = true;
    while most > 0 {
        if address == CODE_START {
            return if fine { Stack::Fine } else { Stack::BadRoot };
        }
        let Some(row) = descriptor_of(image, address) else {
            return Stack::NoFrames;
        };
        if !is_frame(base, first, at, row) {
            return Stack::NoFrames;
        }
        let here = are_roots(image, table, registers, memory, first, at, row);
        fine = both(fine, here);
        let size = u64::from(row.size);
        address = memory.word(bs_words::add(at, size - 8));
        at = bs_words::add(at, size);
        first = false;
        most -= 1;
    }
    Stack::NoFrames
}

fn both(a: bool, b: bool) -> bool
    ensures { result ≡ (a && b) }
{
    a && b
}

// Whether all that one frame names may be there; registers count in the first frame.
fn are_roots(
    image: &Image,
    table: &Table,
    registers: &[u64; 32],
    memory: &Memory,
    first: bool,
    at: u64,
    row: &DescRow,
) -> bool
    requires { IsImage image.now }
    ensures { result
        ≡ (cond first
        (list_all (λ r. root_by (tables image.now) table.now (slice_index registers.now r))
        (registers_named (contents row.now.entries))) true
        && list_all (λ a. root_by (tables image.now) table.now (memory_word memory.now a))
        (slots_named at (contents row.now.entries))) }
{
    let entries = row.entries.as_slice();
    (!first || are_register_roots(image, table, registers, entries))
        && are_slot_roots(image, table, memory, at, entries)
}

fn are_register_roots(image: &Image, table: &Table, registers: &[u64; 32], entries: &[u32]) -> bool
    requires { IsImage image.now }
    ensures { result
        ≡ list_all (λ r. root_by (tables image.now) table.now (slice_index registers.now r))
        (registers_named entries.now) }
{
    for entry in entries {
        if entry % 2 == 1 && !is_root(image, table, held(registers, entry / 2)) {
            return false;
        }
    }
    true
}

// What a register holds; 0 where there is no such register.
fn held(registers: &[u64; 32], r: u32) -> u64
    ensures { result ≡ slice_index registers.now r }
{
    let r = r as usize;
    if r < 32 { registers[r] } else { 0 }
}

fn are_slot_roots(image: &Image, table: &Table, memory: &Memory, at: u64, entries: &[u32]) -> bool
    requires { IsImage image.now }
    ensures { result
        ≡ list_all (λ a. root_by (tables image.now) table.now (memory_word memory.now a))
        (slots_named at entries.now) }
{
    for entry in entries {
        if entry % 2 == 0
            && !is_root(
                image,
                table,
                memory.word(bs_words::add(at, u64::from(*entry))),
            )
        {
            return false;
        }
    }
    true
}

// Whether a word may be where a location is named: an odd word, a block's start, or a word in the data
// or in the code.
fn is_root(image: &Image, table: &Table, word: u64) -> bool
    requires { IsImage image.now }
    ensures { result ≡ root_by (tables image.now) table.now word }
{
    word % 2 == 1 || table.mark_of(word) != 0 || is_in_data(image, word) || is_in_code(image, word)
}

fn is_in_data(image: &Image, word: u64) -> bool
    requires { IsImage image.now }
    ensures { result ≡ is_in_data (tables image.now) word }
{
    DATA_START <= word && word <= DATA_START + image.bytes.len() as u64
}

fn is_in_code(image: &Image, word: u64) -> bool
    requires { IsImage image.now }
    ensures { result ≡ is_in_code (tables image.now) word }
{
    CODE_START <= word && word < CODE_START + 4 * image.code.len() as u64
}
