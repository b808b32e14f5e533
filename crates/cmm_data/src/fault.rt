//! What is wrong with static data.
ghost use Rattle.std.specs.Prelude.{◌≡◌, ◌+◌, ◌%◌, ◌≤◌, ◌<◌, Some, None, map, IfOk, IfErr};
ghost use Rattle.cmm_tree.specs.View.{file_view, data_item_view, datum_view};
ghost use Rattle.cmm_data.specs.Placement.{items_from, end_of_items};
ghost use Rattle.cmm_data.specs.Faults.{is_within_bounds, keeps_rule, first_fault, data_fault_of};
ghost use Rattle.bs_words.specs.Fits.{data_limit, data_start};

use crate::size::{LISTS_START, is_negative, is_unit, size_at, start_behind};
use bs_fault::Fault;
use bs_words::{DATA_LIMIT, DATA_START, signed};
use cmm_tree::{DataItem, Datum, File, Item};

/// The first fault of the static data of a file, in the order of its text: the item with which the data
/// passes 16,777,216 bytes, counted from its start, the built-in list's 8 bytes included; or an item
/// that breaks its rule. Where both are on one item, the data is reported as too large.
pub fn data_fault(file: &File) -> Option<Fault>
    ensures { result ≡ data_fault_of (file_view file.now) }
{
    let mut end = LISTS_START;
    for item in file.items.as_slice() {
        if let Item::Data(list) = item {
            match end_of_items(start_behind(end), list.items.as_slice()) {
                Ok(behind) => end = behind,
                Err(fault) => return Some(fault),
            }
        }
    }
    None
}

/// The first address past the items, the first of which is at the address, or the first fault
/// among them.
fn end_of_items(start: u64, items: &[DataItem]) -> Result<u64, Fault>
    requires { start ≤ data_start + data_limit }
    ensures within { IfOk result (λ end. end ≤ data_start + data_limit) }
    ensures end { IfOk result (λ end. end ≡ end_of_items start (map data_item_view items.now)) }
    ensures faultless { IfOk result (λ end.
        first_fault (items_from start (map data_item_view items.now)) ≡ None) }
    ensures fault { IfErr result (λ fault. first_fault (items_from start
        (map data_item_view items.now)) ≡ Some fault) }
{
    let mut address = start;
    for item in items {
        let size = size_at(address, &item.datum);
        if size > DATA_START + DATA_LIMIT - address {
            return Err(Fault::DataTooLarge { at: item.at });
        }
        if !keeps_rule(address, &item.datum) {
            return Err(Fault::DataItem { at: item.at });
        }
        address += size;
    }
    Ok(address)
}

/// Whether the word, read as signed, lies in these bounds.
fn is_within(low: i64, high: i64, word: u64) -> bool
    ensures { result ≡ is_within_bounds low high word }
{
    let signed = signed(word);
    low <= signed && signed <= high
}

/// Whether an item at the address keeps its rule. An integer out of range breaks none.
fn keeps_rule(address: u64, datum: &Datum) -> bool
    ensures { result ≡ keeps_rule address (datum_view datum.now) }
{
    match datum {
        Datum::Byte(Some(word)) => is_within(-128, 255, *word),
        Datum::Half(Some(word)) => is_within(-32768, 65535, *word),
        Datum::Val(Some(word)) => address % 8 == 0 && *word % 2 == 1,
        Datum::Address { .. } => address % 8 == 0,
        Datum::Skip(Some(count)) => !is_negative(*count),
        Datum::Align(Some(unit)) => is_unit(*unit),
        Datum::Byte(None) | Datum::Half(None) | Datum::Val(None) => true,
        Datum::Skip(None) | Datum::Align(None) => true,
        Datum::Define(_) | Datum::Int(_) | Datum::Text(_) | Datum::Global { .. } | Datum::Float =>
            true,
    }
}
