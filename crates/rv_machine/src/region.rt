//! A region of the memory: bytes in 64-bit words, little-endian.
ghost use Rattle.std.specs.Prelude.{◌≡◌, ◌+◌, ◌*◌, ◌/◌, ◌%◌, ◌^◌, ◌<◌, ◌≤◌, true, slice_index, length};
ghost use Rattle.rv_machine.specs.Memory.{is_inside, index_in, byte_in, with_written};
ghost use Rattle.bs_words.specs.Memory.{IsWidth, part, replaced};

use std::marker::Model;

/// A region: `bytes` bytes from the address `start` on. Contracts see its words.
#[derive(Drop)]
pub struct Region {
    start: u64,
    bytes: u64,
    words: Vec<u64>,
}

impl Model for Region {
    ghost use Rattle.std.specs.Prelude.{◌≡◌, ◌+◌, ◌*◌, ◌%◌, ◌^◌, ◌<◌, ◌≤◌, length};
    ghost use Rattle.rv_machine.specs.Memory as memory;

    ghost Value = { memory.Region };

    ghost view = { λ r. record { start = r.start; bytes = r.bytes; words = r.words.items } };

    ghost invariant = { λ r. (r.start % 8 ≡ 0) × (r.start + r.bytes < 2 ^ 64)
        × (r.bytes ≤ 8 * length r.words.items) };
}

impl Region {
    /// The region with those words. It takes no memory.
    pub fn new(start: u64, bytes: u64, words: Vec<u64>) -> Self
        requires aligned { start % 8 ≡ 0 }
        requires ends { start + bytes < 2 ^ 64 }
        requires covered { bytes ≤ 8 * length words.items }
        ensures { result ≡ record { start = start; bytes = bytes; words = words.items } }
    {
        Region {
            start,
            bytes,
            words,
        }
    }

    /// Whether `width` bytes at `address` lie whole inside the region.
    pub fn has(&self, address: u64, width: u64) -> bool
        ensures { result ≡ is_inside self.now address width }
    {
        if address < self.start {
            return false;
        }
        let offset = address - self.start;
        offset <= self.bytes && width <= self.bytes - offset
    }

    /// The number in `width` bytes at `address`.
    pub fn read(&self, address: u64, width: u64) -> u64
        requires width { IsWidth width }
        requires inside { is_inside self.now address width ≡ true }
        ensures exact { result
            ≡ part (slice_index self.now.words (index_in self.now address))
            (byte_in self.now address) width }
        ensures below { result < 2 ^ (8 * width) }
    {
        let offset = address - self.start;
        let word = self.words[(offset / 8) as usize];
        low_bytes(word >> (8 * (offset % 8)), width)
    }

    /// Writes the lowest `width` bytes of `value` at `address`.
    pub fn write(&mut self, address: u64, width: u64, value: u64)
        requires width { IsWidth width }
        requires aligned { address % width ≡ 0 }
        requires inside { is_inside self.old address width ≡ true }
        ensures { self.new ≡ with_written self.old address width value }
    {
        let offset = address - self.start;
        let index = (offset / 8) as usize;
        self.words[index] = with_bytes(self.words[index], offset % 8, width, value);
    }
}

/// The lowest `width` bytes of a value.
pub fn low_bytes(value: u64, width: u64) -> u64
    requires { IsWidth width }
    ensures { result ≡ value % 2 ^ (8 * width) }
{
    match width {
        1 => value % 0x100,
        2 => value % 0x1_0000,
        4 => value % 0x1_0000_0000,
        _ => value,
    }
}

// The bytes of a word below byte `from`, in their places.
fn bytes_below(word: u64, from: u64) -> u64
    requires { from < 8 }
    ensures { result ≡ word % 2 ^ (8 * from) }
{
    word % (1 << (8 * from))
}

// The bytes of a word from byte `from` on, in their places.
fn bytes_from(word: u64, from: u64) -> u64
    requires { from ≤ 8 }
    ensures { result ≡ word / 2 ^ (8 * from) * 2 ^ (8 * from) }
{
    if from == 8 {
        return 0;
    }
    word - bytes_below(word, from)
}

// The word with `width` bytes from byte `from` on replaced by the lowest bytes of `value`.
fn with_bytes(word: u64, from: u64, width: u64, value: u64) -> u64
    requires width { IsWidth width }
    requires within { from + width ≤ 8 }
    ensures { result ≡ replaced word from width value }
{
    if width == 8 {
        return value;
    }
    let written = low_bytes(value, width) << (8 * from);
    let above = bytes_from(word, from + width);
    bytes_below(word, from) + written + above
}
