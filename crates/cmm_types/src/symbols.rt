//! The symbols that a file defines.
ghost use Rattle.std.specs.Prelude.{◌≡◌, [], length, is_some, IfOk, OnOk};
ghost use Rattle.std.specs.Option.{option_map};
ghost use Rattle.cmm_tree.specs.Symbols.{DefinedSymbol, definition_of};
ghost use Rattle.cmm_types.specs.Gathered.{with_symbol, parameters_of};
ghost use Rattle.cmm_types.specs.Definitions.{defined, definition};

use bs_words::Name;
use indexmap::IndexMap;
use std::alloc::{AllocError, Global};
use std::marker::Model;

/// The definition of a symbol: the place of its string, in bytes from the start of the text, and of a
/// function the number of its parameters.
#[derive(Clone, Copy)]
pub struct Definition {
    /// The place of its string.
    pub at: u32,
    /// The number of parameters of a function; static data has none.
    pub parameters: Option<usize>,
}

/// The symbols that a file defines, in the order of their definitions.
pub struct Symbols {
    definitions: IndexMap<Vec<u8>, Definition>,
}

impl Model for Symbols {
    ghost use Rattle.std.specs.Prelude.{List, map};
    ghost use Rattle.cmm_tree.specs.Symbols.{DefinedSymbol};
    ghost use Rattle.cmm_types.specs.SymbolEntries.{entry_view};

    ghost Value = { List DefinedSymbol };

    ghost view = { λ symbols. map entry_view symbols.definitions.entries };
}

impl Drop for Symbols {
    fn drop(self) {
        let Symbols { definitions: _ } = self;
    }
}

impl Symbols {
    /// No symbols. It takes no memory.
    pub fn new(alloc: Global) -> Self
        ensures { result ≡ [] }
    {
        Symbols {
            definitions: IndexMap::new(alloc),
        }
    }

    /// The number of symbols.
    pub fn len(&self) -> usize
        ensures { result ≡ length self.now }
    {
        self.definitions.len()
    }

    fn find_bytes(&self, name: &[u8]) -> Option<Definition>
        ensures { result ≡ option_map definition (definition_of self.now name.now) }
    {
        self.definitions.get(name).copied()
    }

    /// The definition of the symbol, or `None` if it is not defined.
    pub fn find(&self, name: &Name) -> Option<Definition>
        ensures { result ≡ option_map definition (definition_of self.now name.now) }
    {
        self.find_bytes(name.as_bytes())
    }

    /// Whether the symbol is defined.
    pub fn has(&self, name: &Name) -> bool
        ensures { result ≡ is_some (definition_of self.now name.now) }
    {
        self.find(name).is_some()
    }

    /// The number of parameters of the function of that symbol; `None` if there is none.
    pub fn parameters(&self, name: &Name) -> Option<usize>
        ensures { result ≡ parameters_of (definition_of self.now name.now) }
    {
        self.find(name)?.parameters
    }

    /// Defines the symbol, unless it is defined already. It answers the definition that came before.
    pub(crate) fn define(
        &mut self,
        alloc: Global,
        name: &[u8],
        new: Definition,
    ) -> Result<Option<Definition>, AllocError>
        ensures before { IfOk result (λ before.
            before ≡ option_map definition (definition_of self.old name.now)) }
        ensures after { OnOk result (self.new ≡ with_symbol self.old (defined name.now new)) }
    {
        match self.find_bytes(name) {
            Some(before) => Ok(Some(before)),
            None => {
                let key = Vec::from_slice(alloc, name)?;
                self.definitions.insert(key, new)?;
                Ok(None)
            }
        }
    }
}
