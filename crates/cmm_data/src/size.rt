//! How many bytes an item has, and where a list begins.
ghost use Rattle.std.specs.Prelude.{◌≡◌, ◌+◌, ◌-◌, ◌%◌, ◌<◌, ◌^◌};
ghost use Rattle.cmm_tree.specs.Tree.{Skip, Align};
ghost use Rattle.cmm_tree.specs.View.{datum_view};
ghost use Rattle.cmm_data.specs.Placement.{to_multiple, is_unit, is_negative, skipped, aligned, size_at, start_behind};

use bs_words::{DATA_START, signed};
use cmm_tree::Datum;

/// The first address past the built-in list.
pub(crate) const LISTS_START: u64 = DATA_START + 8;

/// From an address to the next multiple of a unit.
pub(crate) fn to_multiple(address: u64, unit: u64) -> u64
    requires { 0 < unit }
    ensures { result ≡ to_multiple address unit }
{
    (unit - address % unit) % unit
}

/// Whether the unit is a power of two from 1 to 4,096: a divisor of 4,096.
pub(crate) fn is_unit(unit: u64) -> bool
    ensures { result ≡ is_unit unit }
{
    unit > 0 && 4096 % unit == 0
}

/// Whether the word, read as signed, is below 0.
pub(crate) fn is_negative(word: u64) -> bool
    ensures { result ≡ is_negative word }
{
    signed(word) < 0
}

fn skipped(count: u64) -> u64
    ensures { result ≡ skipped count }
{
    if is_negative(count) { 0 } else { count }
}

fn aligned(address: u64, unit: u64) -> u64
    ensures { result ≡ aligned address unit }
{
    if is_unit(unit) {
        to_multiple(address, unit)
    } else {
        0
    }
}

/// The bytes of an item that is at the address. A negative `skip` and an `align` to no power of two
/// from 1 to 4,096 have none.
pub(crate) fn size_at(address: u64, datum: &Datum) -> u64
    ensures { result ≡ size_at address (datum_view datum.now) }
{
    match datum {
        Datum::Define(_) => 0,
        Datum::Byte(_) => 1,
        Datum::Half(_) => 2,
        Datum::Int(_) => 8,
        Datum::Val(_) => 8,
        Datum::Address { .. } => 8,
        Datum::Skip(count) => skip_size(*count),
        Datum::Align(unit) => align_size(address, *unit),
        Datum::Text(bytes) => bytes.len() as u64,
        Datum::Global { .. } => 0,
        Datum::Float => 0,
    }
}

fn skip_size(count: Option<u64>) -> u64
    ensures { result ≡ size_at 0 (Skip count) }
{
    match count {
        Some(count) => skipped(count),
        None => 0,
    }
}

fn align_size(address: u64, unit: Option<u64>) -> u64
    ensures { result ≡ size_at address (Align unit) }
{
    match unit {
        Some(unit) => aligned(address, unit),
        None => 0,
    }
}

/// Where a list after this end of the data begins: at the next multiple of 8.
pub(crate) fn start_behind(end: u64) -> u64
    requires { end < 2 ^ 63 }
    ensures { result ≡ start_behind end }
{
    end + to_multiple(end, 8)
}
