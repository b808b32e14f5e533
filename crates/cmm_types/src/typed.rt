//! Files whose types and symbols are in order.
ghost use Rattle.std.specs.Prelude.{◌≡◌, [], map, IfOk, IfErr, OnOk};
ghost use Rattle.bs_words.specs.Contents.{contents};
ghost use Rattle.bs_fault.specs.declared.fault.Fault.{Fault};
ghost use Rattle.cmm_tree.specs.View.{function_view, item_view, datum_view, data_item_view, file_view};
ghost use Rattle.cmm_tree.specs.Symbols.{symbols, definition_of};
ghost use Rattle.cmm_types.specs.Faults.{TypeFault};
ghost use Rattle.cmm_types.specs.Gathered.{function_faults, datum_faults, data_faults, item_faults, items_faults};
ghost use Rattle.bs_fault.specs.Reported.{noted_all};
ghost use Rattle.cmm_types.specs.Typing.{IsFunctionAnnotated, IsItemAnnotated, AreItemsAnnotated, IsFaultTold};

use crate::bound::is_address;
use crate::checker::Checker;
use crate::gathering::gather;
use crate::labels::LabelScope;
use crate::names::Names;
use crate::symbols::Symbols;
use bs_fault::{Fault, FrontError};
use bs_words::List;
use cmm_tree::{DataItem, Datum, File, Function, Item};
use std::alloc::{AllocError, Global};
use std::marker::Model;

/// A file whose nodes hold their types, with its symbols in the order of their definitions. Contracts see the file.
/// The view is the file, and that nodes hold their types is an invariant; so whoever takes a `Typed` need
/// not ask for it. The tree of definitions cannot be the view: a value of a Model needs a code by which
/// proofs tell its values apart, and the prover makes none for a recursive type of `specs/`.
#[derive(Drop)]
pub struct Typed {
    file: File,
    symbols: Symbols,
}

impl Model for Typed {
    ghost use Rattle.std.specs.Coded.{codes};
    ghost use Rattle.cmm_tree.specs.contracts.file.File as row;
    ghost use Rattle.cmm_tree.specs.declared.file.File.{File};
    ghost use Rattle.cmm_types.specs.Typing.{IsTypedFile};

    ghost Value = { File };

    ghost coded = { Prim.hlevel (codes, row.the_row.coded) };

    ghost view = { λ typed. typed.file };

    ghost invariant = { λ typed. IsTypedFile typed.file typed.symbols };
}

impl Typed {
    /// What is known of a file, as one.
    fn of(file: File, known: Symbols) -> Typed
        requires typed { AreItemsAnnotated (contents file.items) }
        requires symbols { known ≡ symbols (file_view file) }
        ensures { result ≡ file }
    {
        Typed {
            file,
            symbols: known,
        }
    }

    /// The file.
    pub fn file(&self) -> &File
        ensures same { result.now ≡ self.now }
        ensures typed { AreItemsAnnotated (contents self.now.items) }
    {
        &self.file
    }

    /// Its symbols, first the built-in data and then those that the file defines, in order.
    pub fn symbols(&self) -> &Symbols
        ensures { result.now ≡ symbols (file_view self.now) }
    {
        &self.symbols
    }
}

/// Gives each node its type.
///
/// # Errors
///
/// `Fault` exactly where the file has a fault of types or symbols, F11 to F19 or F21, with the leftmost one, and of
/// those on one place the one with the lowest number; `OutOfMemory` where memory ran out before that is known.
pub fn check_types(alloc: Global, file: File) -> Result<Typed, FrontError>
    ensures same { IfOk result (λ typed. file_view typed ≡ file_view file) }
    ensures faultless { IfOk result (λ _. (told : Fault) → ¬ TypeFault (file_view file) told) }
    ensures fault { IfErr result (IsFaultTold (file_view file)) }
{
    let mut items = file.items.into_vec();
    let all = gather(alloc, items.as_slice())?;
    let symbols = all.symbols;
    let mut checker = Checker {
        names: Names::new(alloc),
        labels: LabelScope::new(alloc),
        found: all.found,
    };
    checker.check_items(alloc, &symbols, items.as_mut_slice())?;
    match checker.found {
        Some(told) => Err(FrontError::Fault(told)),
        None => {
            let items = List::from_vec(items);
            Ok(Typed::of(File { items }, symbols))
        }
    }
}

impl Checker {
    /// Gives the nodes of the functions among these items their types, and notes the faults of the items.
    fn check_items(
        &mut self,
        alloc: Global,
        symbols: &Symbols,
        items: &mut [Item],
    ) -> Result<(), AllocError>
        requires names { self.old.names ≡ [] }
        requires labels { self.old.labels ≡ [] }
        ensures view { OnOk result (map item_view items.new ≡ map item_view items.old) }
        ensures typed { OnOk result (AreItemsAnnotated items.new) }
        ensures found { OnOk result (self.new.found
            ≡ noted_all (items_faults (definition_of symbols.now)
            (map item_view items.old)) self.old.found) }
    {
        for index in 0..items.len() {
            self.check_item(alloc, symbols, &mut items[index])?;
        }
        Ok(())
    }

    /// The same of one item.
    fn check_item(
        &mut self,
        alloc: Global,
        symbols: &Symbols,
        item: &mut Item,
    ) -> Result<(), AllocError>
        requires names { self.old.names ≡ [] }
        requires labels { self.old.labels ≡ [] }
        ensures view { OnOk result (item_view item.new ≡ item_view item.old) }
        ensures typed { OnOk result (IsItemAnnotated item.new) }
        ensures names { OnOk result (self.new.names ≡ []) }
        ensures labels { OnOk result (self.new.labels ≡ []) }
        ensures found { OnOk result (self.new.found ≡ noted_all (item_faults
            (definition_of symbols.now) (item_view item.old)) self.old.found) }
    {
        match item {
            Item::Function(function) => {
                self.check_function(alloc, symbols, function)?;
                Ok(())
            }
            Item::Data(list) => {
                self.note_data(symbols, list.items.as_slice());
                Ok(())
            }
        }
    }

    /// The same of a function.
    fn check_function(
        &mut self,
        alloc: Global,
        symbols: &Symbols,
        function: &mut Function,
    ) -> Result<(), AllocError>
        requires names { self.old.names ≡ [] }
        requires labels { self.old.labels ≡ [] }
        ensures view { OnOk result (function_view function.new ≡ function_view function.old) }
        ensures typed { OnOk result (IsFunctionAnnotated function.new) }
        ensures names { OnOk result (self.new.names ≡ []) }
        ensures labels { OnOk result (self.new.labels ≡ []) }
        ensures found { OnOk result (self.new.found ≡ noted_all (function_faults
            (definition_of symbols.now) (function_view function.old)) self.old.found) }
    {
        let params = function.params.as_slice();
        self.note_params(params);
        self.bind_params(alloc, params)?;
        let seen = self.visit(alloc, symbols, &mut function.body)?;
        self.names.leave(0);
        self.note_if(
            is_address(seen.ty()),
            Fault::AddrArgument { at: function.at },
        );
        Ok(())
    }

    /// Notes the faults of static data.
    fn note_data(&mut self, symbols: &Symbols, items: &[DataItem])
        ensures names { self.new.names ≡ self.old.names }
        ensures labels { self.new.labels ≡ self.old.labels }
        ensures found { self.new.found ≡ noted_all (data_faults (definition_of symbols.now)
            (map data_item_view items.now)) self.old.found }
    {
        for item in items {
            self.note_datum(symbols, item.at, &item.datum);
        }
    }

    /// Notes the fault of an item of static data.
    fn note_datum(&mut self, symbols: &Symbols, at: u32, datum: &Datum)
        ensures names { self.new.names ≡ self.old.names }
        ensures labels { self.new.labels ≡ self.old.labels }
        ensures found { self.new.found ≡ noted_all (datum_faults (definition_of symbols.now) at
            (datum_view datum.now)) self.old.found }
    {
        match datum {
            Datum::Address {
                root: _,
                name_at,
                name,
            } => self.note_if(!symbols.has(name), Fault::UnknownSymbol { at: *name_at }),
            Datum::Global { name_at, name } => self.note_if(
                !symbols.has(name),
                Fault::UnknownSymbol { at: *name_at },
            ),
            Datum::Float => self.note(Fault::Float { at }),
            Datum::Define(_) | Datum::Byte(_) | Datum::Half(_) | Datum::Int(_) => {}
            Datum::Val(_) | Datum::Skip(_) | Datum::Align(_) | Datum::Text(_) => {}
        }
    }
}
