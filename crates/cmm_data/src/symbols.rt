//! The values of the symbols of a file.
ghost use Rattle.std.specs.Prelude.{◌≡◌, ◌+◌, ◌<◌, ◌≤◌, ◌^◌, [], ◌∷◌, None, length, map, IfOk};
ghost use Rattle.std.specs.Option.{option_to_list};
ghost use Rattle.bs_words.specs.Fits.{data_limit, data_start};
ghost use Rattle.cmm_tree.specs.Tree.{functions};
ghost use Rattle.cmm_tree.specs.View.{file_view, data_item_view, datum_view};
ghost use Rattle.cmm_data.specs.Placement.{items_from, end_of_items, symbol_at, definition_of_data, defined_at};
ghost use Rattle.cmm_data.specs.Faults.{first_fault, data_fault_of};

use crate::size::{LISTS_START, size_at, start_behind};
use bs_words::{BOUND_ERROR, DATA_START, Value};
use cmm_tree::{DataItem, Datum, File, Item};
use std::alloc::{AllocError, Global};
use std::collections::BTreeMap;

/// The symbols of a file and what they stand for: a function by its number among the file's functions, or
/// the address of static data. Of a symbol that is defined twice it has the first definition in the text.
#[derive(Drop)]
pub struct SymbolTable<'a> {
    values: BTreeMap<&'a [u8], Value>,
}

impl<'a> SymbolTable<'a> {
    ghost use Rattle.cmm_data.specs.Symbols.{value_in, AddsDefinitions, IsTableOf};

    /// The table of the file. The only error is want of memory.
    pub fn of_file(alloc: Global, file: &'a File) -> Result<SymbolTable<'a>, AllocError>
        requires data { data_fault_of (file_view file.now) ≡ None }
        requires few { length (functions (file_view file.now)) < 2 ^ 32 }
        ensures { IfOk result (IsTableOf (file_view file.now)) }
    {
        let mut table = SymbolTable {
            values: BTreeMap::new(alloc),
        };
        table.define(BOUND_ERROR, Value::Word(DATA_START))?;
        let mut functions = 0;
        let mut end = LISTS_START;
        for item in file.items.as_slice() {
            match item {
                Item::Function(function) => {
                    table.define(function.name.as_bytes(), Value::Function(functions))?;
                    functions += 1;
                }
                Item::Data(list) => {
                    end = table.define_items(start_behind(end), list.items.as_slice())?;
                }
            }
        }
        Ok(table)
    }

    /// What the symbol stands for, if it is defined.
    pub fn value_of(&self, name: &[u8]) -> Option<Value>
        ensures { result ≡ value_in self.now name.now }
    {
        self.values.get(name).copied()
    }

    /// Adds a definition. An earlier one of the same name stays.
    fn define(&mut self, name: &'a [u8], value: Value) -> Result<(), AllocError>
        ensures { IfOk result (λ _. AddsDefinitions self.old self.new (record {
          name = name.now;
          value = value;
        } ∷ [])) }
    {
        if !self.values.contains_key(name) {
            self.values.insert(name, value)?;
        }
        Ok(())
    }

    /// Adds the symbol that an item at the address defines, if it does.
    fn define_at(&mut self, address: u64, datum: &'a Datum) -> Result<(), AllocError>
        ensures { IfOk result (λ _. AddsDefinitions self.old self.new (map definition_of_data
            (option_to_list (symbol_at address (datum_view datum.now))))) }
    {
        match datum {
            Datum::Define(name) => self.define(name.as_bytes(), Value::Word(address)),
            Datum::Byte(_) | Datum::Half(_) | Datum::Int(_) | Datum::Val(_) => Ok(()),
            Datum::Address { .. } | Datum::Skip(_) | Datum::Align(_) | Datum::Text(_) => Ok(()),
            Datum::Global { .. } | Datum::Float => Ok(()),
        }
    }

    /// Adds the symbols of a list, whose items are from the address on, and answers its end.
    fn define_items(&mut self, start: u64, items: &'a [DataItem]) -> Result<u64, AllocError>
        requires within { start ≤ data_start + data_limit }
        requires faultless { first_fault (items_from start (map data_item_view items.now)) ≡ None }
        ensures adds { IfOk result (λ _. AddsDefinitions self.old self.new (defined_at start
            (map data_item_view items.now))) }
        ensures end { IfOk result (λ end. end ≡ end_of_items start (map data_item_view items.now)) }
        ensures within { IfOk result (λ end. end ≤ data_start + data_limit) }
    {
        let mut address = start;
        for item in items {
            self.define_at(address, &item.datum)?;
            address += size_at(address, &item.datum);
        }
        Ok(address)
    }
}
