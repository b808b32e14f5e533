//! The memory that may be written: six regions.
ghost use Rattle.std.specs.Prelude.{◌≡◌, ◌==◌, ◌*◌, ◌%◌, ◌^◌, ◌<◌, [], ◌∷◌, IfSome};
ghost use Rattle.rv_machine.specs.Memory.{read, written, loaded_number, stored_number, memory_word, write};
ghost use Rattle.rv_machine.specs.Writes.{ReportsWrite};
ghost use Rattle.bs_words.specs.Memory.{IsWidth};

use crate::region::Region;
use std::marker::Model;

/// The regions that may be written. Contracts see their list, in the order of the fields.
#[derive(Drop)]
pub struct Memory {
    statics: Region,
    domain: Region,
    lower_half: Region,
    upper_half: Region,
    young: Region,
    stack: Region,
}

impl Model for Memory {
    ghost use Rattle.std.specs.Prelude.{List, [], ◌∷◌};
    ghost use Rattle.rv_machine.specs.Memory as memory;

    ghost Value = { List memory.Region };

    ghost view = { λ m.
        m.statics ∷ m.domain ∷ m.lower_half ∷ m.upper_half ∷ m.young ∷ m.stack ∷ [] };
}

impl Memory {
    /// The memory of those regions. It takes no memory.
    pub fn new(
        statics: Region,
        domain: Region,
        lower_half: Region,
        upper_half: Region,
        young: Region,
        stack: Region,
    ) -> Self
        ensures { result ≡ statics ∷ domain ∷ lower_half ∷ upper_half ∷ young ∷ stack ∷ [] }
    {
        Memory {
            statics,
            domain,
            lower_half,
            upper_half,
            young,
            stack,
        }
    }

    /// The number in `width` bytes at `address`, where a region has them.
    pub fn read(&self, address: u64, width: u64) -> Option<u64>
        requires { IsWidth width }
        ensures exact { result ≡ read self.now address width }
        ensures below { IfSome result (λ n. n < 2 ^ (8 * width)) }
    {
        if self.statics.has(address, width) {
            return Some(self.statics.read(address, width));
        }
        if self.domain.has(address, width) {
            return Some(self.domain.read(address, width));
        }
        if self.lower_half.has(address, width) {
            return Some(self.lower_half.read(address, width));
        }
        if self.upper_half.has(address, width) {
            return Some(self.upper_half.read(address, width));
        }
        if self.young.has(address, width) {
            return Some(self.young.read(address, width));
        }
        if self.stack.has(address, width) {
            return Some(self.stack.read(address, width));
        }
        None
    }

    /// Writes the lowest `width` bytes of `value` at `address`; reports whether a region has them there.
    pub fn write(&mut self, address: u64, width: u64, value: u64) -> bool
        requires width { IsWidth width }
        requires aligned { address % width ≡ 0 }
        ensures { ReportsWrite result (written self.old address width value) self.old self.new }
    {
        if self.statics.has(address, width) {
            self.statics.write(address, width, value);
            return true;
        }
        if self.domain.has(address, width) {
            self.domain.write(address, width, value);
            return true;
        }
        if self.lower_half.has(address, width) {
            self.lower_half.write(address, width, value);
            return true;
        }
        if self.upper_half.has(address, width) {
            self.upper_half.write(address, width, value);
            return true;
        }
        if self.young.has(address, width) {
            self.young.write(address, width, value);
            return true;
        }
        if self.stack.has(address, width) {
            self.stack.write(address, width, value);
            return true;
        }
        false
    }

    /// The number in `width` bytes at `address`, where that is a multiple of the width and a region has them.
    pub fn load(&self, address: u64, width: u64) -> Option<u64>
        requires { IsWidth width }
        ensures exact { result ≡ loaded_number self.now address width }
        ensures below { IfSome result (λ n. n < 2 ^ (8 * width)) }
    {
        if is_aligned(address, width) {
            self.read(address, width)
        } else {
            None
        }
    }

    /// The word at an address; 0 where that is no multiple of 8 or no region has a word there.
    pub fn word(&self, address: u64) -> u64
        ensures { result ≡ memory_word self.now address }
    {
        self.load(address, 8).unwrap_or(0)
    }

    /// Writes a word at an address, where that is a multiple of 8 and a region has a word there.
    pub fn put(&mut self, address: u64, word: u64)
        ensures { self.new ≡ write self.old address word }
    {
        let _ = self.store(address, 8, word);
    }

    /// Writes as `write` does, where the address is a multiple of the width.
    pub fn store(&mut self, address: u64, width: u64, value: u64) -> bool
        requires { IsWidth width }
        ensures { ReportsWrite result (stored_number self.old address width value) self.old self.new }
    {
        is_aligned(address, width) && self.write(address, width, value)
    }
}

/// Whether an address is a multiple of a width.
pub fn is_aligned(address: u64, width: u64) -> bool
    requires { IsWidth width }
    ensures { result ≡ (address % width == 0) }
{
    match width {
        1 => true,
        2 => address % 2 == 0,
        4 => address % 4 == 0,
        _ => address % 8 == 0,
    }
}
