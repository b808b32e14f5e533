//! The memory that a machine keeps for moving blocks.
ghost use Rattle.std.specs.Prelude.{◌≡◌, ◌%◌, ◌≤◌, IfOk};
ghost use Rattle.rv_machine.specs.Places.{most_room};
ghost use Rattle.rv_machine.specs.Space.{IsSpace};

use crate::blocks::BlockPlace;
use crate::table::Table;
use std::alloc::{AllocError, Global};

/// What moving blocks needs, so that no service takes memory.
#[derive(Drop)]
pub struct Space {
    /// A mark for each word where a block may start.
    pub table: Table,
    /// Room for the blocks of the young area.
    pub young: Vec<BlockPlace>,
    /// Room for the new start of each block.
    pub starts: Vec<u64>,
    /// Room for the words of all blocks.
    pub words: Vec<u64>,
}

impl Space {
    /// The space for halves of so many bytes. The only error is want of memory.
    pub fn new(alloc: Global, heap: u64) -> Result<Self, AllocError>
        requires aligned { heap % 16 ≡ 0 }
        requires most { heap ≤ most_room }
        ensures { IfOk result (λ space. IsSpace heap space) }
    {
        let table = Table::new(alloc, heap)?;
        // A block has 16 bytes at least, and the young area has 65,536: 4,096 blocks, and the place after them.
        let young = Vec::with_capacity(alloc, 4097)?;
        let starts = Vec::with_capacity(alloc, (heap / 16) as usize)?;
        let words = Vec::with_capacity(alloc, (heap / 8) as usize)?;
        Ok(Space {
            table,
            young,
            starts,
            words,
        })
    }
}
