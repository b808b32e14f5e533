//! The code as a region: it is read and never written.
ghost use Rattle.std.specs.Prelude.{◌≡◌, ◌*◌, ◌^◌, ◌<◌, ◌≤◌, true, length, slice_index};
ghost use Rattle.bs_words.specs.Contents.{contents};
ghost use Rattle.image_form.specs.Image.{code_limit};
ghost use Rattle.rv_machine.specs.Memory.{is_inside, index_in, byte_in, code_region, words_of_halves};
ghost use Rattle.bs_words.specs.Memory.{IsWidth, part};

use crate::region::low_bytes;
use bs_words::List;

/// Where the code begins.
pub const CODE_START: u64 = 0x0001_0000;

/// Whether `width` bytes at `address` lie whole inside the code.
pub fn has(code: &List<u32>, address: u64, width: u64) -> bool
    requires { 4 * length (contents code.now) ≤ code_limit }
    ensures { result ≡ is_inside (code_region (contents code.now)) address width }
{
    if address < CODE_START {
        return false;
    }
    let bytes = 4 * code.len() as u64;
    let offset = address - CODE_START;
    offset <= bytes && width <= bytes - offset
}

/// The number in `width` bytes at `address`.
pub fn read(code: &List<u32>, address: u64, width: u64) -> u64
    requires width { IsWidth width }
    requires inside { is_inside (code_region (contents code.now)) address width ≡ true }
    ensures exact { result ≡ part
        (slice_index (words_of_halves (contents code.now))
        (index_in (code_region (contents code.now)) address))
        (byte_in (code_region (contents code.now)) address) width }
    ensures below { result < 2 ^ (8 * width) }
{
    let offset = address - CODE_START;
    let word = word_at(code, (offset / 8) as usize);
    low_bytes(word >> (8 * (offset % 8)), width)
}

// The 64-bit word of that index: two words of the code, the lower one first; past the end of the code is 0.
fn word_at(code: &List<u32>, index: usize) -> u64
    requires { index < 2 ^ 61 }
    ensures { result ≡ slice_index (words_of_halves (contents code.now)) index }
{
    half_at(code, 2 * index) + 0x1_0000_0000 * half_at(code, 2 * index + 1)
}

// The code's word of that index, or 0 past the end.
fn half_at(code: &List<u32>, index: usize) -> u64
    ensures exact { result ≡ slice_index (contents code.now) index }
    ensures below { result < 2 ^ 32 }
{
    u64::from(code.get(index).copied().unwrap_or(0))
}
