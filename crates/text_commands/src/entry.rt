//! The function that is called.
ghost use Rattle.std.specs.Prelude.{◌<◌, ◌^◌, length, MatchOption};
ghost use Rattle.cmm_tree.specs.Tree.{functions};
ghost use Rattle.cmm_tree.specs.View.{file_view, function_view};
ghost use Rattle.text_commands.specs.Arguments.{IsNamed, NamesNone};

use bs_words::Name;
use cmm_tree::{File, Function, Item};

/// A function of a file, and its number among them.
#[derive(Drop)]
pub(crate) struct Entry<'a> {
    pub(crate) number: u32,
    pub(crate) function: &'a Function,
}

/// The function of a name.
pub(crate) fn entry_named<'a>(file: &'a File, name: &Name) -> Option<Entry<'a>>
    requires few { length (functions (file_view file.now)) < 2 ^ 32 }
    ensures { MatchOption result (NamesNone (file_view file.now) name.now) (λ e.
        IsNamed (file_view file.now) name.now e.number (function_view e.function.now)) }
{
    let mut number: u32 = 0;
    for item in file.items.as_slice() {
        match item {
            Item::Function(function) => {
                if function.name.same(name) {
                    return Some(Entry { number, function });
                }
                number += 1;
            }
            Item::Data(_) => {}
        }
    }
    None
}
