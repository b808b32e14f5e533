//! The cells of the memory, and where an access lies.
ghost use Rattle.std.specs.Prelude.{◌≡◌, ◌+◌, ◌-◌, ◌*◌, ◌/◌, ◌%◌, ◌^◌, ◌<◌, ◌==◌, ◌&&◌, Some, None, map, nat_le};
ghost use Rattle.std.specs.Prelude.{option_map, slice_index_or, slice_set, []};
ghost use Rattle.bs_words.specs.Memory.{width, cell_of_block, in_block, in_statics, offset_in_cell, part, replaced, extended, value_of_type, loaded_as, IsWidth};
ghost use Rattle.cmm_values.specs.Views.{block_view, list_view, cell_view};

use crate::fit::{fits, misfit};
use bs_words::{Chunk, Kind, Ty, Value, sext};

/// A block on the heap: its header word, and the values of its cells.
#[derive(Drop)]
pub(crate) struct HeapCells {
    pub(crate) header: u64,
    pub(crate) cells: Vec<Value>,
}

/// A list of static data: the address of its first byte, its bytes, and the values of its cells.
#[derive(Drop)]
pub(crate) struct StaticCells {
    pub(crate) start: u32,
    pub(crate) size: u32,
    pub(crate) cells: Vec<Value>,
}

/// The cell that an access lies in.
#[derive(Clone, Copy)]
pub(crate) enum Cell {
    /// The header of a block.
    Header { serial: u64 },
    /// A cell of a block.
    Block { serial: u64, index: u64 },
    /// A cell of static data.
    Static { list: u64, index: u64 },
}

/// The bytes of an access.
pub(crate) fn width(chunk: Chunk) -> u64
    ensures exact { result ≡ width chunk }
    ensures width { IsWidth result }
{
    match chunk {
        Chunk::U8 => 1,
        Chunk::I8 => 1,
        Chunk::U16 => 2,
        Chunk::I16 => 2,
        Chunk::U32 => 4,
        Chunk::I32 => 4,
        Chunk::Int => 8,
        Chunk::Val => 8,
    }
}

/// The bytes before an access in its cell.
pub(crate) fn offset_in_cell(address: Value) -> u64
    ensures exact { result ≡ offset_in_cell address }
    ensures below { result < 8 }
{
    match address {
        Value::Word(address) => address % 8,
        Value::Block { offset, .. } => offset % 8,
        Value::Function(_) => 0,
    }
}

/// The cell of a block of so many cells where an access lies in it, which begins so many bytes after the
/// first byte of the header.
pub(crate) fn in_cells(serial: u64, cells: u64, from: u64, bytes: u64) -> Option<Cell>
    ensures { option_map cell_view result ≡ in_block serial (Some cells) from bytes }
{
    if u128::from(from) + u128::from(bytes) <= 8 * (u128::from(cells) + 1) {
        Some(cell_of_block(serial, from / 8))
    } else {
        None
    }
}

// The header, and the cells after it.
fn cell_of_block(serial: u64, number: u64) -> Cell
    ensures { cell_view result ≡ cell_of_block serial number }
{
    if number == 0 {
        Cell::Header { serial }
    } else {
        Cell::Block {
            serial,
            index: number - 1,
        }
    }
}

/// The cell of static data where an access lies in one list.
#[tactic(auto, using(crate::proofs::AtPlaces::map_drop_cons))]
pub(crate) fn in_statics(lists: &[StaticCells], address: u64, bytes: u64) -> Option<Cell>
    ensures { option_map cell_view result ≡ in_statics 0 (map list_view lists.now) address bytes }
{
    for (number, list) in lists.iter().enumerate() {
        if is_in_list(list, address, bytes) {
            return Some(Cell::Static {
                list: number as u64,
                index: (address - u64::from(list.start)) / 8,
            });
        }
    }
    None
}

fn is_in_list(list: &StaticCells, address: u64, bytes: u64) -> bool
    ensures { result ≡ (nat_le list.now.start address && nat_le (address + bytes)
        (list.now.start + list.now.size)) }
{
    u64::from(list.start) <= address
        && u128::from(address) + u128::from(bytes) <= u128::from(list.start) + u128::from(list.size)
}

/// Whether an access is at a multiple of its bytes.
pub(crate) fn is_aligned(address: u64, bytes: u64) -> bool
    requires { IsWidth bytes }
    ensures { result ≡ (address % bytes == 0) }
{
    address % bytes == 0
}

/// What a load with this chunk gives, from these bytes on in a cell with this value.
pub(crate) fn loaded_as(chunk: Chunk, end: u64, offset: u64, value: Value) -> Result<Value, Kind>
    requires { offset < 8 }
    ensures { result ≡ loaded_as chunk end offset value }
{
    match chunk {
        Chunk::Int => of_type(end, Ty::Int, value),
        Chunk::Val => of_type(end, Ty::Val, value),
        Chunk::U8 | Chunk::I8 | Chunk::U16 | Chunk::I16 | Chunk::U32 | Chunk::I32 => match value {
            Value::Word(word) => Ok(Value::Word(extended(chunk, part(word, offset, width(chunk))))),
            Value::Block { .. } | Value::Function(_) => Err(Kind::PartOfPointer),
        },
    }
}

fn of_type(end: u64, ty: Ty, value: Value) -> Result<Value, Kind>
    ensures { result ≡ value_of_type end ty value }
{
    if fits(end, ty, value) {
        Ok(value)
    } else {
        Err(misfit(ty))
    }
}

/// So many bytes of a word, from one of its bytes on.
pub(crate) fn part(word: u64, offset: u64, bytes: u64) -> u64
    requires width { IsWidth bytes }
    requires offset { offset < 8 }
    ensures exact { result ≡ part word offset bytes }
{
    lowest(word >> (8 * offset), bytes)
}

/// The lowest bytes of a word.
fn lowest(word: u64, bytes: u64) -> u64
    requires { IsWidth bytes }
    ensures { result ≡ word % 2 ^ (8 * bytes) }
{
    match bytes {
        1 => word % 0x100,
        2 => word % 0x1_0000,
        4 => word % 0x1_0000_0000,
        _ => word,
    }
}

fn extended(chunk: Chunk, word: u64) -> u64
    ensures { result ≡ extended chunk word }
{
    match chunk {
        Chunk::I8 => sext(word, 8),
        Chunk::I16 => sext(word, 16),
        Chunk::I32 => sext(word, 32),
        Chunk::U8 | Chunk::U16 | Chunk::U32 | Chunk::Int | Chunk::Val => word,
    }
}

/// The word with the lowest bytes of another from one of its bytes on.
pub(crate) fn replaced(word: u64, offset: u64, bytes: u64, new: u64) -> u64
    requires width { IsWidth bytes }
    requires offset { offset < 8 }
    requires aligned { offset % bytes ≡ 0 }
    ensures { result ≡ replaced word offset bytes new }
{
    let unit = 1 << (8 * offset);
    word - part(word, offset, bytes) * unit + lowest(new, bytes) * unit
}

/// The block with a value in one of its cells. A place past the last cell changes nothing.
pub(crate) fn put_in_block(blocks: &mut Vec<HeapCells>, serial: u64, index: u64, value: Value)
    ensures { map block_view blocks.new.items ≡ (let block = slice_index_or
        (map block_view blocks.old.items) serial (record {
          header = 0;
          cells = [];
        }) in slice_set (map block_view blocks.old.items) serial
        (record block { cells = slice_set block.cells index value })) }
{
    let serial = serial as usize;
    if serial < blocks.len() {
        let block = &mut blocks[serial];
        put_in_cells(&mut block.cells, index, value);
    }
}

/// The static data with a value in one of its cells.
pub(crate) fn put_in_list(lists: &mut Vec<StaticCells>, list: u64, index: u64, value: Value)
    ensures { map list_view lists.new.items ≡ (let statics = slice_index_or
        (map list_view lists.old.items) list (record {
          start = 0;
          size = 0;
          cells = [];
        }) in slice_set (map list_view lists.old.items) list
        (record statics { cells = slice_set statics.cells index value })) }
{
    let list = list as usize;
    if list < lists.len() {
        let statics = &mut lists[list];
        put_in_cells(&mut statics.cells, index, value);
    }
}

fn put_in_cells(cells: &mut Vec<Value>, index: u64, value: Value)
    ensures { cells.new.items ≡ slice_set cells.old.items index value }
{
    let index = index as usize;
    if index < cells.len() {
        cells[index] = value;
    }
}
