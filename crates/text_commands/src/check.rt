//! What is reported of a run of a text.
//!
//! Causes are looked for in this order: the text's fault, the entry, the words, the size of the image, the
//! run.
ghost use Rattle.std.specs.Prelude.{◌≡◌, IfOk, IfErr};
ghost use Rattle.bs_words.specs.Contents.{contents};
ghost use Rattle.command_line.specs.View.{check_view};
ghost use Rattle.text_commands.specs.Check.{IsCheckOf};
ghost use Rattle.text_commands.specs.CheckRefusal.{IsCheckRefusal, check_refusal_of_front, check_refusal_of_call, check_refusal_of_build};
ghost use Rattle.text_commands.specs.declared.check.CheckRefusal.TheVariants.{OutOfMemory};

use crate::call::CallRefusal;
use crate::ready::made_ready;
use crate::run::report_of_run;
use bs_fault::{BuildError, Fault, FrontError, Large};
use bs_words::List;
use command_line::CheckWords;
use file_compile::Gate;
use std::alloc::{AllocError, Global};
use std::thread::Threads;
use thiserror::Error;

/// Why nothing is reported of a run of a text.
#[derive(Debug, Drop, Error)]
pub enum CheckRefusal {
    /// The text has a fault.
    #[error("the text has a fault")]
    Fault(Fault),
    /// The text has no function of the entry's name.
    #[error("no function has the entry's name")]
    UnknownEntry,
    /// The arguments do not fit the entry, or a symbol among arguments and answers is of no static data.
    #[error("the arguments do not fit the entry")]
    ArgumentUnfit,
    /// A section of the image would pass its limit.
    #[error("the image is too large")]
    TooLarge(Large),
    /// Memory ran out.
    #[error("out of memory")]
    OutOfMemory,
}

impl From<AllocError> for CheckRefusal {
    ghost from_gives = { λ _ e. e ≡ OutOfMemory };

    fn from(_e: AllocError) -> CheckRefusal {
        CheckRefusal::OutOfMemory
    }
}

impl From<FrontError> for CheckRefusal {
    ghost from_gives = { λ cause e. e ≡ check_refusal_of_front cause };

    fn from(cause: FrontError) -> CheckRefusal {
        match cause {
            FrontError::Fault(fault) => CheckRefusal::Fault(fault),
            FrontError::OutOfMemory => CheckRefusal::OutOfMemory,
        }
    }
}

impl From<CallRefusal> for CheckRefusal {
    ghost from_gives = { λ cause e. e ≡ check_refusal_of_call cause };

    fn from(cause: CallRefusal) -> CheckRefusal {
        match cause {
            CallRefusal::UnknownEntry => CheckRefusal::UnknownEntry,
            CallRefusal::ArgumentUnfit => CheckRefusal::ArgumentUnfit,
            CallRefusal::OutOfMemory => CheckRefusal::OutOfMemory,
        }
    }
}

impl From<BuildError> for CheckRefusal {
    ghost from_gives = { λ cause e. e ≡ check_refusal_of_build cause };

    fn from(cause: BuildError) -> CheckRefusal {
        match cause {
            BuildError::TooLarge(large) => CheckRefusal::TooLarge(large),
            BuildError::OutOfMemory => CheckRefusal::OutOfMemory,
        }
    }
}

/// What is reported of the run of a text that the words ask for: its outcome, and what it needs of stack, heap and fuel.
/// The frames and addresses of functions are those of the text's image by what the words choose, which is compiled by
/// one job.
///
/// # Errors
///
/// `Fault` exactly where the text has a fault, with the one that is reported; else `UnknownEntry` exactly where it has
/// no function of the entry's name; else `ArgumentUnfit` exactly where the words do not suit that function; else
/// `TooLarge` exactly where a section of its image passes its limit, with the first that does. `OutOfMemory` where
/// memory ran out before the answer is known.
pub fn check_text<R: Threads + Sync, G: Gate + Sync>(
    rt: &R,
    alloc: Global,
    text: &[u8],
    check: &CheckWords,
    gate: &G,
) -> Result<List<u8>, CheckRefusal>
    ensures told { IfOk result (λ told. IsCheckOf (check_view check.now) text.now (contents told)) }
    ensures refused { IfErr result (λ r. IsCheckRefusal (check_view check.now) text.now r) }
{
    let ready = made_ready(rt, alloc, text, check, gate)?;
    let file = ready.checked.typed().file();
    Ok(report_of_run(alloc, file, &ready.layout, &ready.call, check.fuel)?)
}
