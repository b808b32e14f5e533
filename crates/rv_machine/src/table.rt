//! A table with a word for each word where a block may start.
ghost use Rattle.std.specs.Prelude.{◌≡◌, ℕ, ◌==◌, ◌+◌, ◌/◌, ◌%◌, ◌≤◌, ◌<◌, cond, IfOk, IsSome, IfSome};
ghost use Rattle.rv_machine.specs.Marks.{IsClean, mark_at, mark_index};
ghost use Rattle.rv_machine.specs.Places.{most_room};

use crate::start::{LOWER_HALF, UPPER_HALF, YOUNG_START, YOUNG_TOP};
use std::alloc::{AllocError, Global};
use std::marker::Model;

/// A mark for each word of the heap and of the young area, found by its address; 0 is no mark.
#[derive(Drop)]
pub struct Table {
    // The bytes of each half of the heap.
    heap: u64,
    marks: Vec<u64>,
}

impl Model for Table {
    ghost use Rattle.std.specs.Prelude.{◌≡◌, ◌≤◌, ◌+◌, ◌/◌, ◌%◌, length};
    ghost use Rattle.rv_machine.specs.Marks.{Marks};
    ghost use Rattle.rv_machine.specs.Places.{most_room};

    ghost Value = { Marks };

    ghost view = { λ t. record { heap = t.heap; marks = t.marks.items } };

    ghost invariant = { λ t. (t.heap % 16 ≡ 0) × (t.heap ≤ most_room)
        × (length t.marks.items ≡ 8192 + t.heap / 8 + t.heap / 8) };
}

impl Table {
    /// The table for halves of so many bytes, with no mark. The only error is want of memory.
    pub fn new(alloc: Global, heap: u64) -> Result<Self, AllocError>
        requires aligned { heap % 16 ≡ 0 }
        requires most { heap ≤ most_room }
        ensures of_heap { IfOk result (λ table. table.heap ≡ heap) }
        ensures clean { IfOk result (λ table. IsClean table) }
    {
        let half = (heap / 8) as usize;
        let marks = vec![in alloc; 0; 8192 + half + half]?;
        Ok(Table { heap, marks })
    }

    /// The mark of an address.
    pub fn mark_of(&self, address: u64) -> u64
        ensures { result ≡ mark_at self.now address }
    {
        match place_of(self.heap, address) {
            Some(place) => self.marks[place],
            None => 0,
        }
    }

    /// Marks an address where a block may start.
    pub fn mark(&mut self, address: u64, mark: u64)
        requires { IsSome (mark_index self.old.heap address) }
        ensures same_heap { self.new.heap ≡ self.old.heap }
        ensures marked { (other : ℕ)
            → mark_at self.new other ≡ cond (other == address) mark (mark_at self.old other) }
    {
        if let Some(place) = place_of(self.heap, address) {
            self.marks[place] = mark;
        }
    }
}

// The place in the table of an address, where a block may start there.
fn place_of(heap: u64, address: u64) -> Option<usize>
    requires aligned { heap % 16 ≡ 0 }
    requires most { heap ≤ most_room }
    ensures exact { result ≡ mark_index heap address }
    ensures within { IfSome result (λ place. place < 8192 + heap / 8 + heap / 8) }
{
    if address % 8 != 0 {
        return None;
    }
    if address >= YOUNG_START && address < YOUNG_TOP {
        return Some(((address - YOUNG_START) / 8) as usize);
    }
    if address >= UPPER_HALF && address < UPPER_HALF + heap {
        return Some((8192 + (address - UPPER_HALF) / 8) as usize);
    }
    if address >= LOWER_HALF && address < LOWER_HALF + heap {
        return Some((8192 + heap / 8 + (address - LOWER_HALF) / 8) as usize);
    }
    None
}
