//! What is wrong with the words that the program was called with.
ghost use Rattle.std.specs.Prelude.{◌≡◌, IfOk};
ghost use Rattle.bs_words.specs.Contents.{contents};
ghost use Rattle.bs_fault.specs.Lines.{usage_word, usage_line};

use bs_words::List;
use std::alloc::{AllocError, Global};

/// What is wrong with the words of a command line.
#[derive(Clone, Copy)]
pub enum Usage {
    /// U1: the words are not in their grammar.
    Words,
    /// U2: the text of a value is not in its grammar, or outside its limits.
    ValueText,
    /// U3: there is no function of the entry's name.
    UnknownEntry,
    /// U4: the arguments or the answers do not fit in number or type.
    ArgumentUnfit,
}

fn usage_word(usage: Usage) -> &'static str
    ensures { result.now ≡ usage_word usage }
{
    match usage {
        Usage::Words => "U1 Words",
        Usage::ValueText => "U2 ValueText",
        Usage::UnknownEntry => "U3 UnknownEntry",
        Usage::ArgumentUnfit => "U4 ArgumentUnfit",
    }
}

/// The line of the fault, as `cmmc: U1 Words` and a line feed. It fails only if memory runs out.
pub fn usage_text(alloc: Global, usage: Usage) -> Result<List<u8>, AllocError>
    ensures { IfOk result (λ text. contents text ≡ usage_line usage) }
{
    let word = usage_word(usage);
    let line = format!(in alloc; "cmmc: {word}\n")?;
    Ok(List::from_vec(line.into_bytes()))
}
