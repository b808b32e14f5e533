//! Where static data lies, and what its cells hold.
ghost use Rattle.std.specs.Prelude.{◌≡◌, ◌%◌, ◌+◌, ◌<◌, ◌≤◌, ◌^◌, ◌++◌, [], ◌∷◌, None, length, map, IfOk};
ghost use Rattle.std.specs.Option.{option_to_list};
ghost use Rattle.bs_words.specs.Fits.{data_limit, data_start};
ghost use Rattle.cmm_tree.specs.Tree.{functions};
ghost use Rattle.cmm_tree.specs.View.{file_view, data_item_view, datum_view};
ghost use Rattle.cmm_data.specs.Placement.{items_from, end_of_items, symbol_at, placed_symbols};
ghost use Rattle.bs_words.specs.Symbol.{caml_bound_error};
ghost use Rattle.cmm_data.specs.Faults.{first_fault, data_fault_of};
ghost use Rattle.cmm_data.specs.Contents.{static_list, is_root_datum, root_of_item, roots_among};
ghost use Rattle.cmm_data.specs.Symbols.{value_in};
ghost use Rattle.cmm_data.specs.Map.{symbol_view, cells_view, IsMapOf};

use crate::data_map::{DataCells, DataMap, DataSymbol};
use crate::filling::Filling;
use crate::size::{LISTS_START, size_at, start_behind};
use crate::symbols::SymbolTable;
use bs_words::{BOUND_ERROR, DATA_START, List, Name, Value};
use cmm_tree::{DataItem, Datum, File, Item};
use std::alloc::{AllocError, Global};

/// The static data of a file at its place, where the data has no fault.
/// The only error is want of memory.
pub fn place_data(alloc: Global, file: &File) -> Result<DataMap, AllocError>
    requires data { data_fault_of (file_view file.now) ≡ None }
    requires few { length (functions (file_view file.now)) < 2 ^ 32 }
    ensures { IfOk result (IsMapOf (file_view file.now)) }
{
    let table = SymbolTable::of_file(alloc, file)?;
    let mut symbols = vec![in alloc; built_in_symbol(alloc)?]?;
    let mut lists = vec![in alloc; built_in_list(alloc)?]?;
    let mut roots = Vec::new(alloc);
    let mut end = LISTS_START;
    for item in file.items.as_slice() {
        if let Item::Data(list) = item {
            let start = start_behind(end);
            let items = list.items.as_slice();
            let placed = place_items(alloc, &table, start, items, &mut symbols, &mut roots)?;
            end = u64::from(placed.start) + u64::from(placed.size);
            lists.push(placed)?;
        }
    }
    Ok(DataMap {
        symbols: List::from_vec(symbols),
        lists: List::from_vec(lists),
        roots: List::from_vec(roots),
        bytes: (end - DATA_START) as u32,
    })
}

fn built_in_symbol(alloc: Global) -> Result<DataSymbol, AllocError>
    ensures { IfOk result (λ symbol. symbol_view symbol ≡ record {
      name = caml_bound_error;
      address = data_start;
    }) }
{
    symbol(alloc, BOUND_ERROR, DATA_START)
}

fn symbol(alloc: Global, name: &[u8], address: u64) -> Result<DataSymbol, AllocError>
    requires { address < 2 ^ 32 }
    ensures { IfOk result (λ symbol.
        symbol_view symbol ≡ record { name = name.now; address = address }) }
{
    let name = Vec::from_slice(alloc, name)?;
    Ok(DataSymbol {
        name: Name::from_vec(name),
        address: address as u32,
    })
}

fn built_in_list(alloc: Global) -> Result<DataCells, AllocError>
    ensures { IfOk result (λ list. cells_view list ≡ record {
      start = data_start;
      size = 8;
      cells = Value.Word 0 ∷ [];
    }) }
{
    let cells = vec![in alloc; Value::Word(0)]?;
    Ok(DataCells {
        start: DATA_START as u32,
        size: 8,
        cells: List::from_vec(cells),
    })
}

/// The cells of a list whose items are from the address on. Its symbols and its root cells are added to
/// those of the lists before it.
fn place_items(
    alloc: Global,
    table: &SymbolTable<'_>,
    start: u64,
    items: &[DataItem],
    symbols: &mut Vec<DataSymbol>,
    roots: &mut Vec<u32>,
) -> Result<DataCells, AllocError>
    requires aligned { start % 8 ≡ 0 }
    requires within { start ≤ data_start + data_limit }
    requires faultless { first_fault (items_from start (map data_item_view items.now)) ≡ None }
    ensures list { IfOk result (λ list. cells_view list ≡ static_list (value_in table.now)
        (record {
          start = start;
          end = end_of_items start (map data_item_view items.now);
          items = items_from start (map data_item_view items.now);
        })) }
    ensures symbols { IfOk result (λ _.
        map symbol_view symbols.new.items ≡ map symbol_view symbols.old.items ++
        placed_symbols (items_from start (map data_item_view items.now))) }
    ensures roots { IfOk result (λ _.
        roots.new.items ≡ roots.old.items ++ roots_among (items_from start
        (map data_item_view items.now))) }
{
    let mut filling = Filling::new(alloc);
    let mut address = start;
    for item in items {
        add_symbol(alloc, symbols, address, &item.datum)?;
        add_root(roots, address, &item.datum)?;
        filling.put_datum(table, address, &item.datum)?;
        address += size_at(address, &item.datum);
    }
    let cells = filling.into_cells()?;
    Ok(DataCells {
        start: start as u32,
        size: (address - start) as u32,
        cells: List::from_vec(cells),
    })
}

/// Adds the symbol that an item at the address defines, if it does.
fn add_symbol(
    alloc: Global,
    symbols: &mut Vec<DataSymbol>,
    address: u64,
    datum: &Datum,
) -> Result<(), AllocError>
    requires { address < 2 ^ 32 }
    ensures { IfOk result (λ _.
        map symbol_view symbols.new.items ≡ map symbol_view symbols.old.items ++
        option_to_list (symbol_at address (datum_view datum.now))) }
{
    if let Datum::Define(name) = datum {
        symbols.push(symbol(alloc, name.as_bytes(), address)?)?;
    }
    Ok(())
}

/// Adds the address of an item that is written as a `val`.
fn add_root(roots: &mut Vec<u32>, address: u64, datum: &Datum) -> Result<(), AllocError>
    requires { address < 2 ^ 32 }
    ensures { IfOk result (λ _. roots.new.items ≡ roots.old.items ++ root_of_item address
        (datum_view datum.now)) }
{
    if is_root(datum) {
        roots.push(address as u32)?;
    }
    Ok(())
}

/// Whether the item is written as a `val`.
fn is_root(datum: &Datum) -> bool
    ensures { result ≡ is_root_datum (datum_view datum.now) }
{
    match datum {
        Datum::Val(_) => true,
        Datum::Address { root, .. } => *root,
        Datum::Define(_) | Datum::Byte(_) | Datum::Half(_) | Datum::Int(_) => false,
        Datum::Skip(_) | Datum::Align(_) | Datum::Text(_) => false,
        Datum::Global { .. } | Datum::Float => false,
    }
}
