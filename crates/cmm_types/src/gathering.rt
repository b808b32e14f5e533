//! The symbols of a file, and those that are defined twice.
ghost use Rattle.std.specs.Prelude.{◌≡◌, [], ◌∷◌, map, is_some, IfOk, OnOk};
ghost use Rattle.bs_fault.specs.declared.fault.Fault.TheVariants as faults;
ghost use Rattle.cmm_tree.specs.View.{item_view, data_item_view, datum_view};
ghost use Rattle.cmm_types.specs.Definitions.{defined};
ghost use Rattle.cmm_tree.specs.Symbols.{built_in, definition_of, symbols_among, item_symbols, data_symbols, datum_symbols};
ghost use Rattle.cmm_types.specs.Gathered.{with_symbol, with_symbols, symbol_faults};
ghost use Rattle.bs_fault.specs.Reported.{noted_all, one_if};

use crate::symbols::{Definition, Symbols};
use bs_fault::{Fault, noted};
use bs_words::BOUND_ERROR;
use cmm_tree::{DataItem, Datum, Item};
use std::alloc::{AllocError, Global};

/// The symbols that are defined so far, and the fault that is reported of them.
#[derive(Drop)]
pub struct Gathering {
    /// The symbols that are defined so far.
    pub symbols: Symbols,
    /// The fault that is reported so far, if there is one.
    pub found: Option<Fault>,
}

/// The symbols that the items define. The only error is want of memory.
pub fn gather(alloc: Global, items: &[Item]) -> Result<Gathering, AllocError>
    ensures symbols { IfOk result (λ all. all.symbols ≡ with_symbols (built_in ∷ []) (symbols_among
        (map item_view items.now))) }
    ensures found { IfOk result (λ all.
        all.found ≡ noted_all (symbol_faults (built_in ∷ []) (symbols_among
        (map item_view items.now))) None) }
{
    let mut symbols = Symbols::new(alloc);
    let definition = Definition {
        at: 0,
        parameters: None,
    };
    symbols.define(alloc, BOUND_ERROR, definition)?;
    let mut all = Gathering {
        symbols,
        found: None,
    };
    for item in items {
        all.add_item(alloc, item)?;
    }
    Ok(all)
}

impl Gathering {
    /// Defines the symbol, or notes that it is defined.
    fn define(
        &mut self,
        alloc: Global,
        name: &[u8],
        definition: Definition,
    ) -> Result<(), AllocError>
        ensures symbols { OnOk result (self.new.symbols ≡ with_symbol self.old.symbols
            (defined name.now definition)) }
        ensures found { OnOk result (self.new.found ≡ noted_all (one_if (is_some
            (definition_of self.old.symbols name.now))
            (faults.DuplicateSymbol definition.at)) self.old.found) }
    {
        if self.symbols.define(alloc, name, definition)?.is_some() {
            self.found = noted(Fault::DuplicateSymbol { at: definition.at }, self.found);
        }
        Ok(())
    }

    /// Defines the symbols of the item.
    fn add_item(&mut self, alloc: Global, item: &Item) -> Result<(), AllocError>
        ensures symbols { OnOk result (self.new.symbols
            ≡ with_symbols self.old.symbols (item_symbols
            (item_view item.now))) }
        ensures found { OnOk result (self.new.found ≡ noted_all (symbol_faults self.old.symbols
            (item_symbols (item_view item.now))) self.old.found) }
    {
        match item {
            Item::Function(function) => {
                let definition = Definition {
                    at: function.name_at,
                    parameters: Some(function.params.len()),
                };
                self.define(alloc, function.name.as_bytes(), definition)
            }
            Item::Data(list) => self.add_data(alloc, list.items.as_slice()),
        }
    }

    /// Defines the symbols of static data.
    fn add_data(&mut self, alloc: Global, items: &[DataItem]) -> Result<(), AllocError>
        ensures symbols { OnOk result (self.new.symbols
            ≡ with_symbols self.old.symbols (data_symbols
            (map data_item_view items.now))) }
        ensures found { OnOk result (self.new.found ≡ noted_all (symbol_faults self.old.symbols
            (data_symbols (map data_item_view items.now))) self.old.found) }
    {
        for item in items {
            self.add_datum(alloc, item.at, &item.datum)?;
        }
        Ok(())
    }

    /// Defines the symbol of an item of static data, if it defines one.
    fn add_datum(&mut self, alloc: Global, at: u32, datum: &Datum) -> Result<(), AllocError>
        ensures symbols { OnOk result (self.new.symbols ≡ with_symbols self.old.symbols
            (datum_symbols at (datum_view datum.now))) }
        ensures found { OnOk result (self.new.found ≡ noted_all (symbol_faults self.old.symbols
            (datum_symbols at (datum_view datum.now))) self.old.found) }
    {
        match datum {
            Datum::Define(name) => {
                let parameters = None;
                self.define(alloc, name.as_bytes(), Definition { at, parameters })
            }
            Datum::Byte(_) | Datum::Half(_) | Datum::Int(_) | Datum::Val(_) => Ok(()),
            Datum::Address { .. } | Datum::Skip(_) | Datum::Align(_) | Datum::Text(_) => Ok(()),
            Datum::Global { .. } | Datum::Float => Ok(()),
        }
    }
}
