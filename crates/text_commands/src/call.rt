//! The call of a function of a file that the words ask for.
ghost use Rattle.std.specs.Prelude.{◌≡◌, Some, None, IfOk, IfErr, MatchOption, slice_get, ◌<◌, ◌^◌, length};
ghost use Rattle.cmm_data.specs.Faults.{data_fault_of};
ghost use Rattle.cmm_tree.specs.Tree.{functions};
ghost use Rattle.cmm_tree.specs.View.{file_view, function_view};
ghost use Rattle.command_line.specs.View.{check_view};
ghost use Rattle.text_commands.specs.Arguments.{IsCall, Suit, Unfit};
ghost use Rattle.text_commands.specs.CheckRefusal.{IsCallRefusal};
ghost use Rattle.text_commands.specs.declared.call.CallRefusal.TheVariants.{OutOfMemory};

use crate::arguments::words_of;
use crate::entry::entry_named;
use cmm_data::SymbolTable;
use cmm_eval::fits_entry;
use cmm_tree::{File, Function};
use command_line::CheckWords;
use std::alloc::{AllocError, Global};
use thiserror::Error;

/// A call of a function of a file.
#[derive(Drop)]
pub struct FileCall {
    /// The number of the function among those of the file.
    pub entry: u32,
    /// The words that are handed to it.
    pub args: Vec<u64>,
    /// The words that answer its external calls, in order.
    pub answers: Vec<u64>,
}

/// Why no function of a file is called.
#[derive(Clone, Copy, Debug, Drop, Error)]
pub enum CallRefusal {
    /// The file has no function of the entry's name.
    #[error("no function has the entry's name")]
    UnknownEntry,
    /// The arguments do not fit the entry, or a symbol among arguments and answers is of no static data.
    #[error("the arguments do not fit the entry")]
    ArgumentUnfit,
    /// Memory ran out.
    #[error("out of memory")]
    OutOfMemory,
}

impl From<AllocError> for CallRefusal {
    ghost from_gives = { λ _ e. e ≡ OutOfMemory };

    fn from(_e: AllocError) -> CallRefusal {
        CallRefusal::OutOfMemory
    }
}

/// The call that the words ask for.
///
/// # Errors
///
/// `UnknownEntry` exactly where the file has no function of the entry's name; else `ArgumentUnfit` exactly where a
/// symbol among arguments and answers is of no static data, or the arguments do not fit the parameters in number and
/// type. `OutOfMemory` where memory ran out before the answer is known.
pub fn call_of(alloc: Global, file: &File, check: &CheckWords) -> Result<FileCall, CallRefusal>
    requires data { data_fault_of (file_view file.now) ≡ None }
    requires few { length (functions (file_view file.now)) < 2 ^ 32 }
    ensures call { IfOk result (λ c.
        IsCall (check_view check.now) (file_view file.now) c.entry c.args.items
        c.answers.items) }
    ensures refused { IfErr result (λ r.
        IsCallRefusal (check_view check.now) (file_view file.now) r) }
{
    let entry = match entry_named(file, &check.entry) {
        Some(entry) => entry,
        None => return Err(CallRefusal::UnknownEntry),
    };
    match words_for(alloc, file, entry.number, entry.function, check)? {
        Some(Suited { args, answers }) => Ok(FileCall {
            entry: entry.number,
            args,
            answers,
        }),
        None => Err(CallRefusal::ArgumentUnfit),
    }
}

/// Words that suit a function, and those that answer its external calls.
#[derive(Drop)]
struct Suited {
    args: Vec<u64>,
    answers: Vec<u64>,
}

/// The words of the arguments and of the answers, where they suit the function of that number.
fn words_for(
    alloc: Global,
    file: &File,
    number: u32,
    function: &Function,
    check: &CheckWords,
) -> Result<Option<Suited>, AllocError>
    requires data { data_fault_of (file_view file.now) ≡ None }
    requires few { length (functions (file_view file.now)) < 2 ^ 32 }
    requires numbered { slice_get (functions (file_view file.now)) number
        ≡ Some (function_view function.now) }
    ensures { IfOk result (λ found.
        MatchOption found
        (Unfit (file_view file.now) (function_view function.now) (check_view check.now)) (λ s.
        Suit (file_view file.now) (function_view function.now)
        (check_view check.now) s.args.items s.answers.items)) }
{
    let table = SymbolTable::of_file(alloc, file)?;
    let args = match words_of(alloc, &table, &check.args)? {
        Some(args) => args,
        None => return Ok(None),
    };
    if !fits_entry(alloc, file, number, args.as_slice())? {
        return Ok(None);
    }
    match words_of(alloc, &table, &check.answers)? {
        Some(answers) => Ok(Some(Suited { args, answers })),
        None => Ok(None),
    }
}
