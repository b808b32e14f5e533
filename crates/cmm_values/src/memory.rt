//! The memory of a run.
ghost use Rattle.std.specs.Prelude.{◌≡◌, ◌+◌, ◌*◌, ◌%◌, ◌<◌, slice_index_or, Some, None};
ghost use Rattle.std.specs.Prelude.{length, map, option_map, option_copied, slice_get, slice_index, IfOk, ◌^◌};
ghost use Rattle.bs_words.specs.Fits.{data_start};
ghost use Rattle.bs_words.specs.Memory.{InBlock, InStatic, end_of_statics, sizes, heap_need, end_of_data, width, IsWidth};
ghost use Rattle.bs_words.specs.Memory.{stored_in, stored_as, put_whole, put_part, cell_at, value_in_cell, type_in};
ghost use Rattle.bs_words.specs.Memory.{type_of_cells, type_of_static, is_root, with_cell_value, loaded, stored, put_in};
ghost use Rattle.bs_words.specs.Memory.{all_fit, allocated};
ghost use Rattle.cmm_tree.specs.Tree.{functions};
ghost use Rattle.cmm_tree.specs.View.{file_view};
ghost use Rattle.cmm_data.specs.Contents.{first_memory};
ghost use Rattle.cmm_data.specs.Faults.{data_fault_of};
ghost use Rattle.cmm_data.specs.Map.{cells_view};
ghost use Rattle.cmm_values.specs.Views.{block_view, list_view, cell_view, header_of_block, start_at};
ghost use Rattle.cmm_values.specs.Changes.{IsStored, IsBlockAllocated};

use crate::access::{
    Cell, HeapCells, StaticCells, in_cells, in_statics, is_aligned, loaded_as, offset_in_cell,
    put_in_block, put_in_list, replaced, width,
};
use crate::fit::{fits, misfit};
use bs_words::{Chunk, DATA_START, Kind, List, Ty, Value};
use cmm_data::{DataCells, DataMap, place_data};
use cmm_tree::File;
use std::alloc::{AllocError, Global};
use std::marker::Model;

/// The memory of a run: the blocks by their serials, and the static data. Contracts see the definitions'
/// memory.
#[derive(Drop)]
pub struct Memory {
    blocks: Vec<HeapCells>,
    statics: Vec<StaticCells>,
    roots: List<u32>,
    heap_need: u64,
    end: u64,
}

impl Model for Memory {
    ghost use Rattle.std.specs.Prelude.{◌≡◌, map};
    ghost use Rattle.bs_words.specs.Contents.{contents};
    ghost use Rattle.bs_words.specs.Fits.{data_start};
    ghost use Rattle.bs_words.specs.Memory as memory;
    ghost use Rattle.cmm_values.specs.Views.{block_view, list_view};

    ghost Value = { memory.Memory };

    ghost view = { λ m. record {
      blocks = map block_view m.blocks.items;
      statics = map list_view m.statics.items;
      roots = contents m.roots;
    } };

    ghost invariant = { λ m. record {
      need : m.heap_need ≡ memory.heap_need
          (record {
            blocks = map block_view m.blocks.items;
            statics = map list_view m.statics.items;
            roots = contents m.roots;
          });
      end : m.end ≡ memory.end_of_statics data_start (map list_view m.statics.items);
    } };
}

impl Memory {
    /// The memory in which a run of the file begins, whose static data has no fault.
    /// The only error is want of memory.
    pub fn of_file(alloc: Global, file: &File) -> Result<Memory, AllocError>
        requires data { data_fault_of (file_view file.now) ≡ None }
        requires few { length (functions (file_view file.now)) < 2 ^ 32 }
        ensures { IfOk result (λ memory. memory ≡ first_memory (file_view file.now)) }
    {
        let DataMap {
            symbols: _,
            lists,
            roots,
            bytes: _,
        } = place_data(alloc, file)?;
        let statics = static_cells(alloc, lists.into_vec())?;
        let end = end_of_statics(statics.as_slice());
        Ok(Memory {
            blocks: Vec::new(alloc),
            statics,
            roots,
            heap_need: 0,
            end,
        })
    }

    /// The first address past the data.
    pub fn end_of_data(&self) -> u64
        ensures { result ≡ end_of_data self.now }
    {
        self.end
    }

    /// The bytes of all blocks, their headers counted.
    pub fn heap_need(&self) -> u64
        ensures { result ≡ heap_need self.now }
    {
        self.heap_need
    }

    #[tactic(auto, using(crate::proofs::AtPlaces::map_read_none))]
    /// The number of cells of a block, or 0 where there is none of that serial.
    pub(crate) fn cells_of(&self, serial: u64) -> u64
        ensures { result ≡ slice_index (sizes self.now) serial }
    {
        match self.block_of(serial) {
            Some(block) => block.cells.len() as u64,
            None => 0,
        }
    }

    fn block_of(&self, serial: u64) -> Option<&HeapCells>
        ensures { option_map block_view (option_copied result) ≡ slice_get self.now.blocks serial }
    {
        self.blocks.get(serial as usize)
    }

    fn list_of(&self, list: u64) -> Option<&StaticCells>
        ensures { option_map list_view (option_copied result) ≡ slice_get self.now.statics list }
    {
        self.statics.get(list as usize)
    }

    // The cell of an access.
    fn cell_at(&self, bytes: u64, address: Value) -> Option<Cell>
        requires { IsWidth bytes }
        ensures { option_map cell_view result ≡ cell_at self.now bytes address }
    {
        match address {
            Value::Word(address) => self.static_at(bytes, address),
            Value::Block { serial, offset } => self.cell_of_block(bytes, serial, offset),
            Value::Function(_) => None,
        }
    }

    fn static_at(&self, bytes: u64, address: u64) -> Option<Cell>
        requires { IsWidth bytes }
        ensures { option_map cell_view result ≡ cell_at self.now bytes (Value.Word address) }
    {
        if is_aligned(address, bytes) {
            in_statics(self.statics.as_slice(), address, bytes)
        } else {
            None
        }
    }

    fn cell_of_block(&self, bytes: u64, serial: u64, offset: u64) -> Option<Cell>
        requires { IsWidth bytes }
        ensures { option_map cell_view result ≡ cell_at self.now bytes (Value.Block serial offset) }
    {
        if !is_aligned(offset, bytes) {
            return None;
        }
        match self.block_of(serial) {
            Some(block) => in_cells(
                serial,
                block.cells.len() as u64,
                offset.wrapping_add(8),
                bytes,
            ),
            None => None,
        }
    }

    fn value_in(&self, cell: Cell) -> Value
        ensures { result ≡ value_in_cell self.now (cell_view cell) }
    {
        match cell {
            Cell::Header { serial } => Value::Word(self.header_of(serial)),
            Cell::Block { serial, index } => self.block_value(serial, index),
            Cell::Static { list, index } => self.static_value(list, index),
        }
    }

    #[tactic(auto, using(crate::proofs::AtPlaces::read_none))]
    fn block_value(&self, serial: u64, index: u64) -> Value
        ensures { result ≡ value_in_cell self.now (InBlock serial index) }
    {
        match self.block_of(serial) {
            Some(block) => value_at(block.cells.as_slice(), index),
            None => Value::Word(0),
        }
    }

    #[tactic(auto, using(crate::proofs::AtPlaces::read_none))]
    fn static_value(&self, number: u64, index: u64) -> Value
        ensures { result ≡ value_in_cell self.now (InStatic number index) }
    {
        match self.list_of(number) {
            Some(list) => value_at(list.cells.as_slice(), index),
            None => Value::Word(0),
        }
    }

    #[tactic(auto, using(crate::proofs::AtPlaces::read_none))]
    fn header_of(&self, serial: u64) -> u64
        ensures { result ≡ header_of_block self.now serial }
    {
        match self.block_of(serial) {
            Some(block) => block.header,
            None => 0,
        }
    }

    #[tactic(auto, using(crate::proofs::AtPlaces::read_none))]
    fn start_of(&self, list: u64) -> u64
        ensures { result ≡ start_at self.now list }
    {
        match self.list_of(list) {
            Some(list) => u64::from(list.start),
            None => 0,
        }
    }

    // The type of what a cell may hold.
    fn type_in(&self, cell: Cell) -> Ty
        ensures { result ≡ type_in self.now (cell_view cell) }
    {
        match cell {
            Cell::Header { .. } => Ty::Int,
            Cell::Block { serial, .. } => type_of_cells(self.header_of(serial)),
            Cell::Static { list, index } => type_of_static(self.is_root(list, index)),
        }
    }

    fn is_root(&self, list: u64, index: u64) -> bool
        ensures { result ≡ is_root self.now.roots (start_at self.now list + 8 * index) }
    {
        is_root(
            self.roots.as_slice(),
            u128::from(self.start_of(list)) + 8 * u128::from(index),
        )
    }

    /// What is loaded at an address.
    ///
    /// # Errors
    ///
    /// `BadAddress` where the access is not at a multiple of its bytes, does not lie whole in one block or list of
    /// static data, or is of a function; else `PartOfPointer` where less than 8 bytes are asked of a cell that holds
    /// no word, and for 8 bytes `HiddenPointer` or `BadValue` where what the cell holds does not fit int or val, as
    /// the chunk says.
    pub fn load(&self, chunk: Chunk, address: Value) -> Result<Value, Kind>
        ensures { result ≡ loaded chunk self.now address }
    {
        match self.cell_at(width(chunk), address) {
            None => Err(Kind::BadAddress),
            Some(cell) => loaded_as(
                chunk,
                self.end,
                offset_in_cell(address),
                self.value_in(cell),
            ),
        }
    }

    /// Stores a value at an address.
    ///
    /// # Errors
    ///
    /// `BadAddress` where the access is not at a multiple of its bytes, does not lie whole in one block or list of
    /// static data, or is of a function; else `HeaderWrite` where it is to a header; else `PartOfPointer` where it is
    /// of less than 8 bytes, and the value or what the cell holds is no word; else `HiddenPointer` or `BadValue`
    /// where the value does not fit the type of the chunk (for 8 bytes), or what the cell would hold does not fit
    /// that of the cell. Nothing has changed then.
    pub fn store(&mut self, chunk: Chunk, address: Value, value: Value) -> Result<(), Kind>
        ensures { IsStored result self.old self.new (stored chunk self.old address value) }
    {
        match self.cell_at(width(chunk), address) {
            None => Err(Kind::BadAddress),
            Some(cell) => self.store_at(chunk, cell, offset_in_cell(address), value),
        }
    }

    // A store to a cell, from this byte of it on. Nothing is stored to a header.
    fn store_at(&mut self, chunk: Chunk, cell: Cell, offset: u64, value: Value) -> Result<(), Kind>
        requires offset { offset < 8 }
        requires aligned { offset % width chunk ≡ 0 }
        ensures { IsStored result self.old self.new (stored_in chunk self.old offset (Some
            (cell_view cell)) value) }
    {
        match cell {
            Cell::Header { .. } => Err(Kind::HeaderWrite),
            Cell::Block { serial, index } => {
                self.store_in(chunk, Cell::Block { serial, index }, offset, value)
            }
            Cell::Static { list, index } => {
                self.store_in(chunk, Cell::Static { list, index }, offset, value)
            }
        }
    }

    fn store_in(&mut self, chunk: Chunk, cell: Cell, offset: u64, value: Value) -> Result<(), Kind>
        requires offset { offset < 8 }
        requires aligned { offset % width chunk ≡ 0 }
        ensures { IsStored result self.old self.new (stored_as chunk
            (end_of_data self.old) self.old (cell_view cell) offset value) }
    {
        match chunk {
            Chunk::Int => self.put_whole(Ty::Int, cell, value),
            Chunk::Val => self.put_whole(Ty::Val, cell, value),
            Chunk::U8 | Chunk::I8 | Chunk::U16 | Chunk::I16 | Chunk::U32 | Chunk::I32 => {
                self.put_part(cell, offset, width(chunk), value)
            }
        }
    }

    fn put_whole(&mut self, ty: Ty, cell: Cell, value: Value) -> Result<(), Kind>
        ensures { IsStored result self.old self.new (put_whole ty
            (end_of_data self.old) self.old (cell_view cell) value) }
    {
        if fits(self.end, ty, value) {
            self.put_in(cell, value)
        } else {
            Err(misfit(ty))
        }
    }

    fn put_part(&mut self, cell: Cell, offset: u64, bytes: u64, value: Value) -> Result<(), Kind>
        requires width { IsWidth bytes }
        requires offset { offset < 8 }
        requires aligned { offset % bytes ≡ 0 }
        ensures { IsStored result self.old self.new (put_part (end_of_data self.old) self.old
            (cell_view cell) offset bytes (value_in_cell self.old (cell_view cell)) value) }
    {
        match (self.value_in(cell), value) {
            (Value::Word(old), Value::Word(new)) => {
                self.put_in(cell, Value::Word(replaced(old, offset, bytes, new)))
            }
            (Value::Block { .. } | Value::Function(_), _)
            | (_, Value::Block { .. } | Value::Function(_)) => Err(Kind::PartOfPointer),
        }
    }

    fn put_in(&mut self, cell: Cell, value: Value) -> Result<(), Kind>
        ensures { IsStored result self.old self.new (put_in (end_of_data self.old) self.old
            (cell_view cell) value) }
    {
        let ty = self.type_in(cell);
        if fits(self.end, ty, value) {
            self.set(cell, value);
            Ok(())
        } else {
            Err(misfit(ty))
        }
    }

    fn set(&mut self, cell: Cell, value: Value)
        ensures { self.new ≡ with_cell_value self.old (cell_view cell) value }
    {
        match cell {
            Cell::Header { .. } => {}
            Cell::Block { serial, index } => put_in_block(&mut self.blocks, serial, index, value),
            Cell::Static { list, index } => put_in_list(&mut self.statics, list, index, value),
        }
    }

    /// A new block with these values in its cells, and the pointer to it.
    ///
    /// # Errors
    ///
    /// The inner error is `BadValue` exactly where the block is scanned and a value does not fit val, and
    /// `HiddenPointer` where it is not and a value does not fit int. Nothing has changed then. The outer error is that
    /// memory is used up, as which a heap of 2^64 bytes or more is answered too.
    pub fn allocate(
        &mut self,
        header: u64,
        cells: Vec<Value>,
    ) -> Result<Result<Value, Kind>, AllocError>
        ensures { IfOk result (λ r. IsBlockAllocated r self.old self.new
            (allocated self.old header cells.items)) }
    {
        let ty = type_of_cells(header);
        if !all_fit(self.end, ty, cells.as_slice()) {
            return Ok(Err(misfit(ty)));
        }
        let serial = self.blocks.len() as u64;
        let need = added_need(self.heap_need, cells.len() as u64)?;
        self.blocks.push(HeapCells { header, cells })?;
        self.heap_need = need;
        Ok(Ok(Value::Block { serial, offset: 0 }))
    }
}

// The heap need with a block more of so many cells; 2^64 bytes or more are answered as want of memory.
// No host holds so large a heap, but no contract says what all vectors take at once: so the sum stays a
// test.
fn added_need(need: u64, cells: u64) -> Result<u64, AllocError>
    ensures { IfOk result (λ more. more ≡ need + 8 * (cells + 1)) }
{
    let bytes = cells
        .checked_add(1)
        .ok_or(AllocError)?
        .checked_mul(8)
        .ok_or(AllocError)?;
    need.checked_add(bytes).ok_or(AllocError)
}

fn static_cells(alloc: Global, lists: Vec<DataCells>) -> Result<Vec<StaticCells>, AllocError>
    ensures { IfOk result (λ cells. map list_view cells.items ≡ map cells_view lists.items) }
{
    let mut statics = Vec::new(alloc);
    for list in lists {
        let DataCells { start, size, cells } = list;
        statics.push(StaticCells {
            start,
            size,
            cells: cells.into_vec(),
        })?;
    }
    Ok(statics)
}

fn end_of_statics(lists: &[StaticCells]) -> u64
    ensures { result ≡ end_of_statics data_start (map list_view lists.now) }
{
    let mut end = DATA_START;
    for list in lists {
        end = u64::from(list.start) + u64::from(list.size);
    }
    end
}

fn value_at(cells: &[Value], index: u64) -> Value
    ensures { result ≡ slice_index_or cells.now index (Value.Word 0) }
{
    cells.get(index as usize).copied().unwrap_or(Value::Word(0))
}

fn type_of_cells(header: u64) -> Ty
    ensures { result ≡ type_of_cells header }
{
    if header % 256 <= 250 {
        Ty::Val
    } else {
        Ty::Int
    }
}

fn type_of_static(is_root: bool) -> Ty
    ensures { result ≡ type_of_static is_root }
{
    if is_root { Ty::Val } else { Ty::Int }
}

fn is_root(roots: &[u32], address: u128) -> bool
    ensures { result ≡ is_root roots.now address }
{
    for root in roots {
        if u128::from(*root) == address {
            return true;
        }
    }
    false
}

fn all_fit(end: u64, ty: Ty, values: &[Value]) -> bool
    ensures { result ≡ all_fit end ty values.now }
{
    for value in values {
        if !fits(end, ty, *value) {
            return false;
        }
    }
    true
}
