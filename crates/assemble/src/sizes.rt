//! How large the sections of an image become, before any of it is made.
ghost use Rattle.std.specs.Prelude.{◌≡◌, ◌<◌, ◌^◌, map, sum_by};
ghost use Rattle.assemble.specs.Sizes.{item_size, symbol_size, call_size, descs_size};
ghost use Rattle.assemble.specs.Source.{IsSource, laid_of, tree_of};
ghost use Rattle.image_form.specs.Tables.{ext};
ghost use Rattle.rv_layout_rules.specs.Externals.{externals};
ghost use Rattle.rv_layout.specs.Sizes.{AreSizesOf};

use crate::source::Source;
use cmm_data::DataSymbol;
use cmm_tree::Item;
use function_places::Laid;
use image_form::ExtRow;
use rv_layout::Sizes;

/// The bytes of the number of a table's rows.
const COUNT: u64 = 4;

/// The bytes of the row of a function, if the item is one.
fn item_size(item: &Item) -> u64
    requires { item_size item.now < 2 ^ 60 }
    ensures { result ≡ item_size item.now }
{
    match item {
        Item::Function(function) => {
            16 + function.name.as_bytes().len() as u64 + function.params.len() as u64
        }
        Item::Data(_) => 0,
    }
}

fn items_size(items: &[Item]) -> u64
    requires { sum_by item_size items.now < 2 ^ 60 }
    ensures { result ≡ sum_by item_size items.now }
{
    let mut size: u64 = 0;
    for item in items {
        size += item_size(item);
    }
    size
}

/// The bytes of the rows of symbols.
fn symbols_size(symbols: &[DataSymbol]) -> u64
    requires { sum_by symbol_size symbols.now < 2 ^ 60 }
    ensures { result ≡ sum_by symbol_size symbols.now }
{
    let mut size: u64 = 0;
    for symbol in symbols {
        size += 6 + symbol.name.as_bytes().len() as u64;
    }
    size
}

/// The bytes of the rows of external calls.
fn calls_size(calls: &[ExtRow]) -> u64
    requires { sum_by call_size calls.now < 2 ^ 60 }
    ensures { result ≡ sum_by call_size calls.now }
{
    let mut size: u64 = 0;
    for call in calls {
        size += 4 + call.name.as_bytes().len() as u64 + call.params.len() as u64;
    }
    size
}

/// The bytes of all descriptors.
fn descs_size(functions: &[Laid]) -> u64
    requires { sum_by descs_size functions.now < 2 ^ 60 }
    ensures { result ≡ sum_by descs_size functions.now }
{
    let mut size: u64 = 0;
    for function in functions {
        size += function.descs;
    }
    size
}

impl<'a, 'b> Source<'a, 'b> {
    /// The bytes of the sections. `calls` are the rows of the external calls.
    pub fn sizes(&self, calls: &[ExtRow]) -> Sizes
        requires source { IsSource self.now }
        requires calls { map ext calls.now ≡ externals (tree_of self.now) }
        ensures { AreSizesOf result (laid_of self.now) }
    {
        Sizes {
            funcs: COUNT + items_size(self.file.items.as_slice()),
            code: 4 * self.places.end,
            bytes: u64::from(self.data.bytes),
            syms: COUNT + symbols_size(self.data.symbols.as_slice()),
            roots: COUNT + 4 * self.data.roots.len() as u64,
            extcs: COUNT + calls_size(calls),
            descs: COUNT + descs_size(self.places.forms.as_slice()),
        }
    }
}
