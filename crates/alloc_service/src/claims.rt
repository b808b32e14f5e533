//! Whether a plan is valid: each word of the new places is claimed in the table, and none twice.
ghost use Rattle.std.specs.Prelude.{◌≡◌, ◌≢◌, ℕ, ◌+◌, ◌-◌, ◌*◌, ◌%◌, ◌^◌, ◌≤◌, ◌<◌, true, false, length, IsTrue, ◌↔◌};
ghost use Rattle.std.specs.List.{AllByRecursion, list_all};
ghost use Rattle.rv_machine.specs.Marks.{IsClean, mark_at};
ghost use Rattle.rv_machine.specs.Placement.{placed_at, is_in_heap, are_apart, is_valid};
ghost use Rattle.rv_machine.specs.Places.{most_room};
ghost use Rattle.alloc_service.specs.Forward.{IsSmall, MarksWithin, covers};

use rv_machine::start::{LOWER_HALF, UPPER_HALF};
use rv_machine::{BlockPlace, Table};

/// Whether the starts are a valid plan for the blocks. The table is left clean.
pub fn is_valid(table: &mut Table, heap: u64, blocks: &[BlockPlace], starts: &[u64]) -> bool
    requires clean { IsClean table.old }
    requires of_heap { table.old.heap ≡ heap }
    requires most { heap ≤ most_room }
    requires small { AllByRecursion IsSmall blocks.now }
    ensures exact { result ≡ is_valid heap blocks.now starts.now }
    ensures clean { IsClean table.new }
    ensures same_heap { table.new.heap ≡ heap }
{
    if starts.len() != blocks.len() || !are_in_heap(heap, blocks, starts) {
        return false;
    }
    let apart = claim(table, heap, blocks, starts);
    release(table, heap, blocks, starts);
    apart
}

// Whether each block would lie inside a half.
fn are_in_heap(heap: u64, blocks: &[BlockPlace], starts: &[u64]) -> bool
    requires lengths { length starts.now ≡ length blocks.now }
    requires most { heap ≤ most_room }
    requires small { AllByRecursion IsSmall blocks.now }
    ensures { result ≡ list_all (is_in_heap heap) (placed_at blocks.now starts.now) }
{
    for (k, block) in blocks.iter().enumerate() {
        if !is_in_heap(heap, starts[k], block.words()) {
            return false;
        }
    }
    true
}

// Whether a block that starts there lies inside a half.
fn is_in_heap(heap: u64, start: u64, words: u64) -> bool
    requires most { heap ≤ most_room }
    requires small { words ≤ 2 ^ 24 }
    ensures { result ≡ is_in_heap heap (record { start = start; words = words }) }
{
    start % 8 == 0
        && (is_in_half(LOWER_HALF, heap, start, words)
            || is_in_half(UPPER_HALF, heap, start, words))
}

fn is_in_half(half: u64, heap: u64, start: u64, words: u64) -> bool
    requires half { half ≤ 2 ^ 32 }
    requires most { heap ≤ most_room }
    requires small { words ≤ 2 ^ 24 }
    ensures { IsTrue result ↔ ((half + 8 ≤ start) × (start + 8 * words ≤ half + heap)) }
{
    half + 8 <= start && start <= half + heap && start + 8 * words <= half + heap
}

// Claims the words of each block at its new place, or reports that one was claimed before. So overlaps are
// found in one pass over the bytes, and not by pairs of blocks.
fn claim(table: &mut Table, heap: u64, blocks: &[BlockPlace], starts: &[u64]) -> bool
    requires clean { IsClean table.old }
    requires of_heap { table.old.heap ≡ heap }
    requires most { heap ≤ most_room }
    requires lengths { length starts.now ≡ length blocks.now }
    requires small { AllByRecursion IsSmall blocks.now }
    requires inside { list_all (is_in_heap heap) (placed_at blocks.now starts.now) ≡ true }
    ensures exact { result ≡ are_apart (placed_at blocks.now starts.now) }
    ensures within { MarksWithin table.new (placed_at blocks.now starts.now) }
    ensures same_heap { table.new.heap ≡ heap }
{
    let mut left = blocks.len();
    while left > 0 {
        left -= 1;
        let block = &blocks[left];
        if !claim_block(table, starts[left], block.words()) {
            return false;
        }
    }
    true
}

// Claims the words of one block.
fn claim_block(table: &mut Table, start: u64, words: u64) -> bool
    requires most { table.old.heap ≤ most_room }
    requires small { words ≤ 2 ^ 24 }
    requires inside { is_in_heap table.old.heap (record { start = start; words = words }) ≡ true }
    ensures free { result ≡ true → (a : ℕ)
        → covers a (record { start = start; words = words }) ≡ true → mark_at table.old a ≡ 0 }
    ensures taken { result ≡ false → (a : ℕ) × (a % 8 ≡ 0)
        × (covers a (record { start = start; words = words }) ≡ true) × (mark_at table.old a ≢ 0) }
    ensures outside { (a : ℕ) → covers a (record { start = start; words = words }) ≡ false
        → mark_at table.new a ≡ mark_at table.old a }
    ensures inside { result ≡ true → (a : ℕ) → a % 8 ≡ 0
        → covers a (record { start = start; words = words }) ≡ true → mark_at table.new a ≡ 1 }
    ensures same_heap { table.new.heap ≡ table.old.heap }
{
    let end = start + 8 * words;
    let mut at = start - 8;
    while at < end {
        if table.mark_of(at) != 0 {
            return false;
        }
        table.mark(at, 1);
        at += 8;
    }
    true
}

// Takes all claims back. Each word is unmarked, claimed or not: a plan that is refused has claimed some of
// them.
fn release(table: &mut Table, heap: u64, blocks: &[BlockPlace], starts: &[u64])
    requires of_heap { table.old.heap ≡ heap }
    requires most { heap ≤ most_room }
    requires lengths { length starts.now ≡ length blocks.now }
    requires small { AllByRecursion IsSmall blocks.now }
    requires inside { list_all (is_in_heap heap) (placed_at blocks.now starts.now) ≡ true }
    requires within { MarksWithin table.old (placed_at blocks.now starts.now) }
    ensures clean { IsClean table.new }
    ensures same_heap { table.new.heap ≡ heap }
{
    for (k, block) in blocks.iter().enumerate() {
        release_block(table, starts[k], block.words());
    }
}

fn release_block(table: &mut Table, start: u64, words: u64)
    requires most { table.old.heap ≤ most_room }
    requires small { words ≤ 2 ^ 24 }
    requires inside { is_in_heap table.old.heap (record { start = start; words = words }) ≡ true }
    ensures outside { (a : ℕ) → covers a (record { start = start; words = words }) ≡ false
        → mark_at table.new a ≡ mark_at table.old a }
    ensures inside { (a : ℕ) → covers a (record { start = start; words = words }) ≡ true →
        mark_at table.new a ≡ 0 }
    ensures same_heap { table.new.heap ≡ table.old.heap }
{
    let end = start + 8 * words;
    let mut at = start - 8;
    while at < end {
        table.mark(at, 0);
        at += 8;
    }
}
