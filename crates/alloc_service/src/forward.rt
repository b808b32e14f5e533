//! The table while blocks move: at the old start of each it has the new one.
ghost use Rattle.std.specs.Prelude.{◌≡◌, length};
ghost use Rattle.std.specs.List.{AllByRecursion};
ghost use Rattle.rv_machine.specs.Marks.{IsClean};
ghost use Rattle.alloc_service.specs.Forward.{IsForward, IsPlaced, forward};

use rv_machine::{BlockPlace, Table};

/// What the table makes of a word: the new start of a block from its old one, and every other word stays.
pub fn forward(table: &Table, word: u64) -> u64
    ensures { result ≡ forward table.now word }
{
    let mark = table.mark_of(word);
    if mark == 0 { word } else { mark }
}

/// Marks the old start of each block with its new one; of blocks with one start the first is found.
pub fn forward_all(table: &mut Table, blocks: &[BlockPlace], starts: &[u64])
    requires clean { IsClean table.old }
    requires lengths { length starts.now ≡ length blocks.now }
    requires placed { AllByRecursion (IsPlaced table.old.heap) blocks.now }
    ensures forward { IsForward table.new blocks.now starts.now }
    ensures same_heap { table.new.heap ≡ table.old.heap }
{
    let mut left = blocks.len();
    while left > 0 {
        left -= 1;
        let block = &blocks[left];
        table.mark(block.start(), starts[left]);
    }
}

/// Takes the mark off each block's start.
pub fn forget(table: &mut Table, blocks: &[BlockPlace], starts: &[u64])
    requires forward { IsForward table.old blocks.now starts.now }
    requires placed { AllByRecursion (IsPlaced table.old.heap) blocks.now }
    ensures clean { IsClean table.new }
    ensures same_heap { table.new.heap ≡ table.old.heap }
{
    for block in blocks {
        table.mark(block.start(), 0);
    }
}
