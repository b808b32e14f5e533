//! The words of a command line's arguments and answers, by the file.
ghost use Rattle.std.specs.Prelude.{◌≡◌, IfOk, option_map};
ghost use Rattle.bs_words.specs.Contents.{contents};
ghost use Rattle.cmm_data.specs.Symbols.{value_in};
ghost use Rattle.text_commands.specs.Arguments.{word_of_argument, words_of_arguments};

use bs_words::{List, Value};
use cmm_data::SymbolTable;
use command_line::Arg;
use std::alloc::{AllocError, Global};

/// The word of an argument or an answer: a symbol is one of static data.
fn word_of(table: &SymbolTable<'_>, arg: &Arg) -> Option<u64>
    ensures { result ≡ word_of_argument (value_in table.now) arg.now }
{
    match arg {
        Arg::Word(word) => Some(*word),
        Arg::Symbol(name) => match table.value_of(name.as_bytes()) {
            Some(Value::Word(word)) => Some(word),
            _ => None,
        },
    }
}

/// The words of all, where each has one.
pub(crate) fn words_of(
    alloc: Global,
    table: &SymbolTable<'_>,
    args: &List<Arg>,
) -> Result<Option<Vec<u64>>, AllocError>
    ensures { IfOk result (λ words.
        option_map (λ w. w.items) words ≡ words_of_arguments (value_in table.now) (contents args.now)) }
{
    let mut words = Vec::new(alloc);
    for arg in args.as_slice() {
        match word_of(table, arg) {
            Some(word) => words.push(word)?,
            None => return Ok(None),
        }
    }
    Ok(Some(words))
}
