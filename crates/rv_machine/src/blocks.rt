//! Where the blocks of the heap lie.
ghost use Rattle.std.specs.Prelude.{◌≡◌};

use std::marker::Model;

/// The place of a block: the address of its first cell, and the number of its cells.
#[derive(Drop)]
pub struct BlockPlace {
    start: u64,
    words: u64,
}

impl Model for BlockPlace {
    ghost use Rattle.rv_machine.specs.Hart.{Placed};

    ghost Value = { Placed };

    ghost view = { λ b. record { start = b.start; words = b.words } };
}

impl BlockPlace {
    /// The place of a block whose first cell is at `start`.
    pub fn new(start: u64, words: u64) -> Self
        ensures { result ≡ record { start = start; words = words } }
    {
        BlockPlace { start, words }
    }

    /// The address of the first cell.
    pub fn start(&self) -> u64
        ensures { result ≡ self.now.start }
    {
        self.start
    }

    /// The number of cells.
    pub fn words(&self) -> u64
        ensures { result ≡ self.now.words }
    {
        self.words
    }

    /// Moves the block: its first cell is at `start`.
    pub fn move_to(&mut self, start: u64)
        ensures { self.new ≡ record self.old { start = start } }
    {
        self.start = start;
    }
}
