//! The memory and the registers at the start of a run.
ghost use Rattle.std.specs.Prelude.{◌≡◌, ◌+◌, ◌*◌, ◌%◌, ◌^◌, ◌<◌, ◌≤◌, length, IfOk};
ghost use Rattle.bs_words.specs.Fits.{data_limit};
ghost use Rattle.rv_machine.specs.Memory.{number_from_bytes, words_of_bytes};
ghost use Rattle.rv_machine.specs.Places.{most_room};
ghost use Rattle.rv_machine.specs.Start.{uniform, data_region, domain_region, stack_region};

use crate::code::CODE_START;
use crate::region::Region;
use bs_words::DATA_START;
use std::alloc::{AllocError, Global};

/// The domain page, whose first word is the limit word.
pub const DOMAIN_START: u64 = 0x2000_0000;

/// The address of the heap's first half, in which the heap begins.
pub const LOWER_HALF: u64 = 0x3000_0000;

/// The address of the heap's second half.
pub const UPPER_HALF: u64 = 0x3400_0000;

/// The most bytes of a stack, and of a half of the heap.
pub const MOST_ROOM: u32 = 67_108_864;

/// The lowest address of the young area, which fills downwards.
pub const YOUNG_START: u64 = 0x3800_0000;

/// The address right after the young area, where its first block ends.
pub const YOUNG_TOP: u64 = 0x3801_0000;
/// The bottom of the stack, where a trap frame lies that no program pushed.
pub const STACK_BOTTOM: u64 = 0x3FFF_FFF0;
/// What is in memory that holds nothing, and in destroyed registers.
pub const FILLER: u64 = 0x5A5A_5A5A_5A5A_5A5A;

/// A region of so many words that are all the same. The only error is want of memory.
pub fn uniform(alloc: Global, start: u64, count: usize, word: u64) -> Result<Region, AllocError>
    requires aligned { start % 8 ≡ 0 }
    requires ends { start + 8 * count < 2 ^ 64 }
    ensures { IfOk result (λ r. r ≡ uniform start count word) }
{
    let words = vec![in alloc; word; count]?;
    Ok(Region::new(start, 8 * count as u64, words))
}

/// The data region of those bytes. The only error is want of memory.
pub fn data_region(alloc: Global, bytes: &[u8]) -> Result<Region, AllocError>
    requires { length bytes.now ≤ data_limit }
    ensures { IfOk result (λ r. r ≡ data_region bytes.now) }
{
    let words = words_of_bytes(alloc, bytes)?;
    Ok(Region::new(DATA_START, bytes.len() as u64, words))
}

/// The domain page, with the limit word at rest. The only error is want of memory.
pub fn domain_region(alloc: Global) -> Result<Region, AllocError>
    ensures { IfOk result (λ r. r ≡ domain_region) }
{
    let mut words = vec![in alloc; 0; 512]?;
    words[0] = YOUNG_START;
    Ok(Region::new(DOMAIN_START, 4096, words))
}

/// The stack of so many bytes above the bottom trap frame. The only error is want of memory.
pub fn stack_region(alloc: Global, stack: u64) -> Result<Region, AllocError>
    requires aligned { stack % 16 ≡ 0 }
    requires most { stack ≤ most_room }
    ensures { IfOk result (λ r. r ≡ stack_region stack) }
{
    let mut words = vec![in alloc; 0; (stack / 8) as usize]?;
    words.push(CODE_START + 8)?;
    words.push(0)?;
    Ok(Region::new(STACK_BOTTOM - stack, stack + 16, words))
}

// The 64-bit words of bytes; past the end the last one has zeros.
fn words_of_bytes(alloc: Global, bytes: &[u8]) -> Result<Vec<u64>, AllocError>
    ensures { IfOk result (λ v. v.items ≡ words_of_bytes bytes.now) }
{
    let mut words = Vec::new(alloc);
    let mut rest = bytes;
    while rest.len() >= 8 {
        let (word, more) = rest.split_at(8);
        words.push(number_of(word))?;
        rest = more;
    }
    if !rest.is_empty() {
        words.push(number_of(rest))?;
    }
    Ok(words)
}

// The number of at most eight bytes, the lowest first.
fn number_of(bytes: &[u8]) -> u64
    requires { length bytes.now ≤ 8 }
    ensures exact { result ≡ number_from_bytes bytes.now }
    ensures below { result < 256 ^ length bytes.now }
{
    match bytes {
        [] => 0,
        [first, rest @ ..] => u64::from(*first) + 256 * number_of(rest),
    }
}
