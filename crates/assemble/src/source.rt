//! What an image is made of.
ghost use Rattle.std.specs.Prelude.{◌≡◌, ◌<◌, ◌^◌, Some};
ghost use Rattle.assemble.specs.Source.{IsSource, source_entries};
ghost use Rattle.rv_layout_rules.specs.Laid.{address_of_value, address_of_place};

use bs_words::Value;
use cmm_data::{DataMap, SymbolTable};
use cmm_tree::File;
use external_rows::ExternalRows;
use function_places::Places;
use rv_machine::CODE_START;
use rv_pieces::Pieces;

/// A file, and all that is known of it before its image is made.
#[derive(Clone, Copy)]
pub struct Source<'a, 'b> {
    /// The file itself.
    pub file: &'b File,
    /// Its static data.
    pub data: &'b DataMap,
    /// What its symbols stand for.
    pub symbols: &'a SymbolTable<'b>,
    /// Its external calls.
    pub calls: &'a ExternalRows,
    /// The pieces of its functions, in order.
    pub pieces: &'b [Pieces],
    /// Where its functions begin, and the forms of their pieces.
    pub places: &'a Places,
}

/// The address of what lies this many words after the begin of the code.
pub fn place_address(place: u64) -> u64
    requires { place < 2 ^ 59 }
    ensures { result ≡ address_of_place place }
{
    CODE_START + 4 * place
}

impl<'a, 'b> Source<'a, 'b> {
    /// The word that a value stands for. No static data and no symbol is a block.
    pub fn address_of_value(&self, value: Value) -> u64
        requires { IsSource self.now }
        ensures { result ≡ address_of_value (source_entries self.now) (Some value) }
    {
        match value {
            Value::Word(address) => address,
            Value::Function(function) => {
                match self.places.entries.get(function as usize) {
                    Some(entry) => place_address(*entry),
                    None => CODE_START,
                }
            }
            Value::Block {
                serial: _,
                offset: _,
            } => 0,
        }
    }
}
