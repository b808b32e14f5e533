//! Moving the blocks, and rewriting what points to them.
ghost use Rattle.std.specs.Prelude.{◌≡◌, ◌≤◌, ◌<◌, ◌+◌, ◌*◌, ◌/◌, ◌++◌, ◌^◌, suc, zero, cond, length, map, replicate, slice_index, Some};
ghost use Rattle.std.specs.List.{AllByRecursion};
ghost use Rattle.std.specs.Vec.{vec_len, vec_capacity};
ghost use Rattle.bs_words.specs.Contents.{contents};
ghost use Rattle.image_form.specs.Image.{IsImage};
ghost use Rattle.image_form.specs.Tables.{desc, tables};
ghost use Rattle.rv_machine.specs.Relocation.{root_addresses};
ghost use Rattle.rv_machine.specs.Frames.{is_register, registers_named, slots_named};
ghost use Rattle.rv_machine.specs.Hart.{with_register};
ghost use Rattle.rv_machine.specs.Memory.{code_start, put, words_at, write, memory_word};
ghost use Rattle.rv_machine.specs.Moving.{rewritten_block, rewritten_cells, vacated};
ghost use Rattle.rv_machine.specs.Placement.{placed_at};
ghost use Rattle.rv_machine.specs.Places.{stack_end, filler};
ghost use Rattle.alloc_service.specs.Forward.{IsLow, Redirects, forward, poured, redirected_now, redirected_registers_now, words_moved, words_of_blocks};

use crate::forward::forward;
use crate::stack::{STACK_END, descriptor_of};
use bs_words::DATA_START;
use image_form::Image;
use rv_machine::start::FILLER;
use rv_machine::{BlockPlace, CODE_START, Memory, Table};

// ---- the words of blocks

/// Adds the words of all blocks, rewritten as they are to be copied.
pub fn gather(memory: &Memory, table: &Table, blocks: &[BlockPlace], words: &mut Vec<u64>)
    requires small { AllByRecursion IsLow blocks.now }
    requires room { vec_len words.old + words_of_blocks blocks.now ≤ vec_capacity words.old }
    ensures gathered { words.new.items
        ≡ words.old.items ++ words_moved (forward table.now) memory.now blocks.now }
    ensures capacity { vec_capacity words.old ≤ vec_capacity words.new }
{
    for block in blocks {
        gather_block(memory, table, block.start(), block.words(), words);
    }
}

// Adds the words of one block, its header first.
fn gather_block(memory: &Memory, table: &Table, start: u64, count: u64, words: &mut Vec<u64>)
    requires low { start + 8 * count < 2 ^ 63 }
    requires high { 8 ≤ start }
    requires room { vec_len words.old + suc count ≤ vec_capacity words.old }
    ensures len { vec_len words.new ≡ vec_len words.old + suc count }
    ensures gathered { words.new.items ≡ words.old.items
        ++ rewritten_block (forward table.now) memory.now
        (record { start = start; words = count }) }
    ensures capacity { vec_capacity words.old ≤ vec_capacity words.new }
{
    let header = memory.word(start - 8);
    let _ = words.push(header);
    gather_cells(memory, table, header % 256 < 251, start, count, words);
}

// Adds the cells from an address on, rewritten where they hold values.
fn gather_cells(
    memory: &Memory,
    table: &Table,
    scanned: bool,
    start: u64,
    count: u64,
    words: &mut Vec<u64>,
)
    requires low { start + 8 * count < 2 ^ 63 }
    requires room { vec_len words.old + count ≤ vec_capacity words.old }
    ensures len { vec_len words.new ≡ vec_len words.old + count }
    ensures gathered { words.new.items ≡ words.old.items
        ++ rewritten_cells scanned (forward table.now) (words_at memory.now start count) }
    ensures capacity { vec_capacity words.old ≤ vec_capacity words.new }
{
    let mut at = start;
    let mut left = count;
    while left > 0 {
        let word = cell(table, scanned, memory.word(at));
        let _ = words.push(word);
        at += 8;
        left -= 1;
    }
}

fn cell(table: &Table, scanned: bool, word: u64) -> u64
    ensures { result ≡ cond scanned (forward table.now word) word }
{
    if scanned { forward(table, word) } else { word }
}

/// The places of the blocks hold nothing any more.
pub fn vacate(memory: &mut Memory, blocks: &[BlockPlace])
    requires small { AllByRecursion IsLow blocks.now }
    ensures { memory.new ≡ vacated memory.old blocks.now }
{
    for block in blocks {
        fill(memory, block.start() - 8, block.words() + 1);
    }
}

// So many words from an address on hold nothing.
fn fill(memory: &mut Memory, from: u64, count: u64)
    requires { from + 8 * count < 2 ^ 63 }
    ensures { memory.new ≡ put memory.old from (replicate count filler) }
{
    let mut at = from;
    let mut left = count;
    while left > 0 {
        memory.put(at, FILLER);
        at += 8;
        left -= 1;
    }
}

/// Pours the words to the new places, as many to each as the block has with its header.
pub fn pour(memory: &mut Memory, words: &[u64], blocks: &[BlockPlace])
    requires small { AllByRecursion IsLow blocks.now }
    requires enough { length words.now ≡ words_of_blocks blocks.now }
    ensures { memory.new ≡ poured memory.old words.now blocks.now }
{
    let mut rest = words;
    for block in blocks {
        let (first, more) = rest.split_at((block.words() + 1) as usize);
        write_words(memory, block.start() - 8, first);
        rest = more;
    }
}

fn write_words(memory: &mut Memory, from: u64, words: &[u64])
    requires { from + 8 * length words.now < 2 ^ 63 }
    ensures { memory.new ≡ put memory.old from words.now }
{
    let mut at = from;
    for word in words {
        memory.put(at, *word);
        at += 8;
    }
}

/// The blocks have their new starts.
pub fn place(blocks: &mut Vec<BlockPlace>, starts: &[u64])
    requires { length starts.now ≡ length blocks.old.items }
    ensures placed { blocks.new.items ≡ placed_at blocks.old.items starts.now }
    ensures capacity { vec_capacity blocks.new ≡ vec_capacity blocks.old }
{
    for (k, start) in starts.iter().enumerate() {
        let block = &mut blocks[k];
        block.move_to(*start);
    }
}

// ---- what points to them

fn redirect(memory: &mut Memory, table: &Table, address: u64)
    ensures { memory.new ≡ write memory.old address (forward table.now (memory_word memory.old address)) }
{
    let word = forward(table, memory.word(address));
    memory.put(address, word);
}

/// Rewrites the root cells.
pub fn redirect_roots(memory: &mut Memory, table: &Table, image: &Image)
    ensures { memory.new
        ≡ redirected_now (forward table.now) memory.old (root_addresses (tables image.now)) }
{
    for offset in image.roots.as_slice() {
        redirect(memory, table, DATA_START + u64::from(*offset));
    }
}

/// Rewrites the places of the stack that the frames name.
pub fn redirect_slots(
    memory: &mut Memory,
    table: &Table,
    image: &Image,
    base: u64,
    address: u64,
    sp: u64,
)
    requires image { IsImage image.now }
    requires base { base ≤ stack_end }
    requires above { code_start ≤ base }
    ensures { Redirects (forward table.now)
        (map desc (contents image.now.descs)) base memory.old memory.new address sp }
{
    let mut most = (STACK_END - base) / 16 + 1;
    let mut address = address;
    let mut at = sp;
    while most > 0 {
        if address == CODE_START {
            return;
        }
        let Some(row) = descriptor_of(image, address) else {
            return;
        };
        let size = u64::from(row.size);
        address = memory.word(bs_words::add(at, size - 8));
        redirect_frame(memory, table, at, row.entries.as_slice());
        at = bs_words::add(at, size);
        most -= 1;
    }
}

fn redirect_frame(memory: &mut Memory, table: &Table, at: u64, entries: &[u32])
    ensures { memory.new
        ≡ redirected_now (forward table.now) memory.old (slots_named at entries.now) }
{
    for entry in entries {
        if entry % 2 == 0 {
            redirect(memory, table, bs_words::add(at, u64::from(*entry)));
        }
    }
}

/// Rewrites the registers that the first frame names.
pub fn redirect_registers(registers: &mut [u64; 32], table: &Table, entries: &[u32])
    ensures exact { registers.new
        ≡ redirected_registers_now (forward table.now) registers.old (registers_named entries.now) }
    ensures zero { slice_index registers.new 0 ≡ slice_index registers.old 0 }
{
    for entry in entries {
        redirect_entry(registers, table, *entry);
    }
}

// Rewrites the register that an entry names, where it names one.
fn redirect_entry(registers: &mut [u64; 32], table: &Table, entry: u32)
    ensures exact { registers.new ≡ cond (is_register entry)
        (with_register (entry / 2)
        (forward table.now (slice_index registers.old (entry / 2))) registers.old)
        registers.old }
    ensures zero { slice_index registers.new 0 ≡ slice_index registers.old 0 }
{
    if entry % 2 == 1 {
        redirect_register(registers, table, (entry / 2) as usize);
    }
}

// x0 stays, and so do registers that there are not.
fn redirect_register(registers: &mut [u64; 32], table: &Table, r: usize)
    ensures exact { registers.new
        ≡ with_register r (forward table.now (slice_index registers.old r)) registers.old }
    ensures zero { slice_index registers.new 0 ≡ slice_index registers.old 0 }
{
    if r != 0 && r < 32 {
        registers[r] = forward(table, registers[r]);
    }
}
