//! The blocks of an allocation.
//!
//! An allocation lists each block's header and number of cells. Memory has that header at once, and the
//! first store of a header must store that very word: so cells may be written before or after it.
ghost use Rattle.std.specs.Prelude.{◌≡◌, ◌<◌, ◌+◌, ◌++◌, [], ◌∷◌, IfOk};
ghost use Rattle.mach_ir.specs.Blocks.{new_block_bytes, total_block_bytes};

use std::alloc::{AllocError, Global};
use std::marker::Model;

/// A block that is allocated: the header word that it is to have, and the number of its cells.
#[derive(Clone, Copy)]
pub struct NewBlock {
    /// The header word.
    pub header: u64,
    /// How many cells it has, of 8 bytes each, the header not among them.
    pub cells: u32,
}

/// The blocks of one allocation, first to last. Contracts see them as a list. Their bytes are below
/// 2^32.
#[derive(Clone, Drop)]
pub struct Blocks {
    items: Vec<NewBlock>,
    bytes: u32,
}

impl Model for Blocks {
    ghost use Rattle.std.specs.Prelude.{◌≡◌, List};
    ghost use Rattle.mach_ir.specs.Blocks.{total_block_bytes};
    ghost use Rattle.mach_ir.specs.declared.blocks.NewBlock.{NewBlock};

    ghost Value = { List NewBlock };

    ghost view = { λ blocks. blocks.items.items };

    ghost invariant = { λ blocks. blocks.bytes ≡ total_block_bytes blocks.items.items };
}

impl Blocks {
    /// The one block. The only error is want of memory.
    pub fn one(alloc: Global, block: NewBlock) -> Result<Self, AllocError>
        requires { new_block_bytes block < 4294967296 }
        ensures { IfOk result (λ blocks. blocks ≡ block ∷ []) }
    {
        let mut items = Vec::new(alloc);
        items.push(block)?;
        Ok(Blocks {
            items,
            bytes: 8 * (block.cells + 1),
        })
    }

    #[tactic(auto, using(crate::proofs::Sums::bytes_push))]
    /// Allocates one block more, after the others. Where memory is used up nothing has changed.
    pub fn push(&mut self, block: NewBlock) -> Result<(), AllocError>
        requires { total_block_bytes self.old + new_block_bytes block < 4294967296 }
        ensures { IfOk result (λ _. self.new ≡ self.old ++ block ∷ []) }
    {
        self.items.push(block)?;
        self.bytes += 8 * (block.cells + 1);
        Ok(())
    }

    /// The blocks, in order.
    pub fn as_slice(&self) -> &[NewBlock]
        ensures { result.now ≡ self.now }
    {
        self.items.as_slice()
    }

    /// The bytes of all of them together, a header word for each among them.
    pub fn bytes(&self) -> u32
        ensures { result ≡ total_block_bytes self.now }
    {
        self.bytes
    }
}
