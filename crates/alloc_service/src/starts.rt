//! Lists of new starts.
ghost use Rattle.std.specs.Prelude.{◌≡◌, ◌+◌, ◌*◌, ◌^◌, ◌/◌, ◌%◌, ◌≤◌, ◌<◌, ◌++◌, ◌==◌, [], length, reverse};
ghost use Rattle.std.specs.Vec.{vec_len, vec_capacity};
ghost use Rattle.rv_machine.specs.Placement.{bytes_used, spaced, drawn_plan};
ghost use Rattle.rv_machine.specs.Places.{most_room};

use crate::young::bytes_used;
use rv_machine::start::{LOWER_HALF, UPPER_HALF};
use rv_machine::{BlockPlace, MOST_ROOM};

/// The start of a half.
pub fn half_start(half: u64) -> u64
    requires { half < 2 }
    ensures exact { result ≡ 0x30000000 + 0x04000000 * half }
{
    if half == 0 { LOWER_HALF } else { UPPER_HALF }
}

/// Adds the starts of blocks that lie one after the other from an address on, with a gap before each.
pub fn add_spaced(starts: &mut Vec<u64>, gap: u64, from: u64, blocks: &[BlockPlace])
    requires room { vec_len starts.old + length blocks.now ≤ vec_capacity starts.old }
    requires gap { gap ≤ 24 }
    requires from { from ≤ 2 ^ 32 }
    requires used { bytes_used blocks.now ≤ 2 ^ 32 }
    ensures filled { starts.new.items ≡ starts.old.items ++ spaced gap from blocks.now }
    ensures capacity { vec_capacity starts.old ≤ vec_capacity starts.new }
{
    let mut at = from;
    for block in blocks {
        let start = at + gap + 8;
        let _ = starts.push(start);
        at = start + 8 * block.words();
    }
}

/// Adds the starts of blocks that lie so from the last block to the first, and turns the list round.
pub fn fill_falling(starts: &mut Vec<u64>, gap: u64, from: u64, blocks: &[BlockPlace])
    requires empty { starts.old.items ≡ [] }
    requires room { length blocks.now ≤ vec_capacity starts.old }
    requires gap { gap ≤ 24 }
    requires from { from ≤ 2 ^ 32 }
    requires used { bytes_used blocks.now ≤ 2 ^ 32 }
    ensures filled { starts.new.items ≡ reverse (spaced gap from (reverse blocks.now)) }
    ensures capacity { vec_capacity starts.old ≤ vec_capacity starts.new }
{
    let mut at = from;
    let mut left = blocks.len();
    while left > 0 {
        left -= 1;
        let block = &blocks[left];
        let start = at + gap + 8;
        let _ = starts.push(start);
        at = start + 8 * block.words();
    }
    starts.reverse();
}

/// Fills the plan that is drawn from a word of the generator. One that would run past the largest half stays
/// empty, and so is none for the blocks.
pub fn fill_drawn(starts: &mut Vec<u64>, word: u64, blocks: &[BlockPlace])
    requires empty { starts.old.items ≡ [] }
    requires room { length blocks.now ≤ vec_capacity starts.old }
    requires used { bytes_used blocks.now ≤ most_room }
    ensures filled { starts.new.items ≡ drawn_plan word blocks.now }
    ensures capacity { vec_capacity starts.old ≤ vec_capacity starts.new }
{
    let gap = 8 * (word / 4 % 4);
    if gap * blocks.len() as u64 + bytes_used(blocks) > MOST_ROOM as u64 {
        return;
    }
    let from = half_start(word % 2);
    if word / 2 % 2 == 0 {
        add_spaced(starts, gap, from, blocks);
    } else {
        fill_falling(starts, gap, from, blocks);
    }
}
