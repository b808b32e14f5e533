//! What an observer sees of a word of the machine.
ghost use Rattle.std.specs.Prelude.{◌≡◌, ◌<◌, ◌^◌, ◌&&◌, nat_le, reverse, IfSome};
ghost use Rattle.rv_machine.specs.Hart.{register};
ghost use Rattle.rv_machine.specs.Observation.{observed_word, all_blocks, serial_from, young_blocks, or_none, passed};

use crate::blocks::BlockPlace;
use crate::machine::Machine;
use crate::memory::Memory;
use crate::start::{YOUNG_START, YOUNG_TOP};
use bs_words::{Comp, Obs};
use rv_isa::Register;

impl<'a> Machine<'a> {
    /// What an observer sees of a word of that type: a val that is a block's start is the block, and
    /// every other word is itself. The young blocks are read from the memory. It takes no memory.
    pub fn observe(&self, comp: Comp, word: u64) -> Obs
        ensures { result ≡ observed_word self.now comp word }
    {
        match comp {
            Comp::Val => match self.serial_of(word) {
                Some(serial) => Obs::Block(serial),
                None => Obs::Word(word),
            },
            Comp::Int | Comp::Addr | Comp::Float => Obs::Word(word),
        }
    }

    // The serial of the block that starts at an address.
    fn serial_of(&self, address: u64) -> Option<u64>
        ensures { result ≡ serial_from 0 (all_blocks self.now) address }
    {
        let table = self.blocks();
        match serial_in(table, address) {
            Some(serial) => Some(serial),
            None => {
                let serial = young_serial(
                    self.memory(),
                    self.register(Register::S10 as u8),
                    address,
                )?;
                Some(table.len() as u64 + serial)
            }
        }
    }
}

// The serial of the block that starts at an address, among those of the table.
fn serial_in(blocks: &[BlockPlace], address: u64) -> Option<u64>
    ensures { result ≡ serial_from 0 blocks.now address }
{
    for (serial, block) in blocks.iter().enumerate() {
        if block.start() == address {
            return Some(serial as u64);
        }
    }
    None
}

// The serial of the block that starts at an address, among the young ones from `from` on, the one at the
// highest address being the first. A header says only where the next higher block is, so the walk goes up and
// the serial is counted from its end (`passed`).
fn young_serial(memory: &Memory, from: u64, address: u64) -> Option<u64>
    ensures exact { result
        ≡ serial_from 0 (reverse (or_none (young_blocks memory.now from))) address }
    ensures below { IfSome result (λ serial. serial < 2 ^ 32) }
{
    if from % 8 != 0 || from < YOUNG_START || from > YOUNG_TOP {
        return None;
    }
    let mut at = from;
    let mut most = (YOUNG_TOP - from) / 16 + 1;
    let mut found = None;
    while most > 0 {
        if at == YOUNG_TOP {
            return found;
        }
        let words = memory.read(at, 8)? >> 10;
        if !is_whole(words) {
            return None;
        }
        found = passed(found, at + 8, address);
        at = at + 8 + 8 * words;
        most -= 1;
    }
    None
}

// Whether a young block may have so many cells.
fn is_whole(words: u64) -> bool
    ensures { result ≡ (nat_le 1 words && nat_le words 256) }
{
    1 <= words && words <= 256
}

// The serial of the block at `address` among the blocks passed, once the one that starts at `start` has been
// passed too: that one comes first, and those before it are one later.
fn passed(found: Option<u64>, start: u64, address: u64) -> Option<u64>
    requires { IfSome found (λ serial. serial < 2 ^ 32) }
    ensures { result ≡ passed address found start }
{
    if start == address {
        return Some(0);
    }
    match found {
        Some(serial) => Some(serial + 1),
        None => None,
    }
}
