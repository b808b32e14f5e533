//! The blocks of the young area.
ghost use Rattle.std.specs.Prelude.{◌≡◌, ◌≤◌, ◌<◌, ◌+◌, ◌-◌, ◌/◌, ◌++◌, [], true, false, length, reverse, Some};
ghost use Rattle.std.specs.Vec.{vec_capacity};
ghost use Rattle.std.specs.List.{AllByRecursion};
ghost use Rattle.rv_machine.specs.Observation.{young_blocks};
ghost use Rattle.rv_machine.specs.Placement.{bytes_used};
ghost use Rattle.rv_machine.specs.Places.{most_room};
ghost use Rattle.alloc_service.specs.Young.{ReadsYoung, TakesYoung};
ghost use Rattle.rv_machine.specs.Space.{HasCells};

use rv_machine::start::{YOUNG_START, YOUNG_TOP};
use rv_machine::{BlockPlace, Memory};

/// What came of taking the young blocks into the table.
#[derive(Clone, Copy)]
pub enum Taken {
    /// All the blocks are in the table.
    Entered,
    /// The words do not read as whole blocks.
    Broken,
    /// All blocks together do not fit a half.
    TooMany,
}

/// Takes the blocks from an address up to the young area's top into the table, the highest first, where
/// they read as whole blocks and all blocks fit a half.
pub fn take_young(
    memory: &Memory,
    from: u64,
    heap: u64,
    young: &mut Vec<BlockPlace>,
    blocks: &mut Vec<BlockPlace>,
) -> Taken
    requires most { heap ≤ most_room }
    requires empty { young.old.items ≡ [] }
    requires room { 4097 ≤ vec_capacity young.old }
    requires table { heap / 16 ≤ vec_capacity blocks.old }
    requires fits { bytes_used blocks.old.items ≤ heap }
    requires some { AllByRecursion HasCells blocks.old.items }
    ensures taken { TakesYoung result
        (young_blocks memory.now from) heap blocks.old.items blocks.new.items }
    ensures empty { young.new.items ≡ [] }
    ensures room { 4097 ≤ vec_capacity young.new }
    ensures table { heap / 16 ≤ vec_capacity blocks.new }
{
    if !read_young(memory, from, young) {
        young.clear();
        return Taken::Broken;
    }
    if bytes_used(blocks) + (YOUNG_TOP - from) > heap {
        young.clear();
        return Taken::TooMany;
    }
    enter(young, blocks);
    Taken::Entered
}

// Reads the blocks from an address up to the young area's top, the lowest first, or reports that there are no
// whole blocks. A block has 16 bytes at least, so the loop ends whatever the headers say.
fn read_young(memory: &Memory, from: u64, young: &mut Vec<BlockPlace>) -> bool
    requires empty { young.old.items ≡ [] }
    requires room { 4097 ≤ vec_capacity young.old }
    ensures exact { ReadsYoung result (young_blocks memory.now from) young.new.items }
    ensures room { 4097 ≤ vec_capacity young.new }
{
    if from % 8 != 0 || from < YOUNG_START || from > YOUNG_TOP {
        return false;
    }
    let mut at = from;
    let mut most = (YOUNG_TOP - from) / 16 + 1;
    while most > 0 {
        if at == YOUNG_TOP {
            return true;
        }
        let Some(header) = memory.read(at, 8) else {
            return false;
        };
        let words = header >> 10;
        if words == 0 || words > 256 {
            return false;
        }
        let _ = young.push(BlockPlace::new(at + 8, words));
        at = at + 8 + 8 * words;
        most -= 1;
    }
    false
}

/// The bytes of the blocks, with their headers.
pub fn bytes_used(blocks: &[BlockPlace]) -> u64
    requires { bytes_used blocks.now ≤ most_room }
    ensures { result ≡ bytes_used blocks.now }
{
    let mut used = 0;
    for block in blocks {
        used += 8 + 8 * block.words();
    }
    used
}

// The last goes first: allocation goes down, so the block at the highest address has the first serial.
fn enter(young: &mut Vec<BlockPlace>, blocks: &mut Vec<BlockPlace>)
    requires { length blocks.old.items + length young.old.items ≤ vec_capacity blocks.old }
    ensures entered { blocks.new.items ≡ blocks.old.items ++ reverse young.old.items }
    ensures empty { young.new.items ≡ [] }
    ensures room { vec_capacity young.old ≤ vec_capacity young.new }
    ensures table { vec_capacity blocks.old ≤ vec_capacity blocks.new }
{
    while let Some(block) = young.pop() {
        let _ = blocks.push(block);
    }
}
