//! Compiling a text.
ghost use Rattle.std.specs.Prelude.{◌≡◌, ◌≤◌, IfOk, IfErr};
ghost use Rattle.bs_words.specs.Contents.{contents};
ghost use Rattle.text_commands.specs.Refusal.{SpellsImageOf, IsTextRefusal, refusal_of_front, refusal_of_build};
ghost use Rattle.text_commands.specs.declared.compile.Refusal.TheVariants.{OutOfMemory};

use bs_fault::{BuildError, Fault, FrontError, Large};
use bs_words::List;
use choices::Choices;
use cmm_front::front;
use file_compile::{Gate, compile_by};
use image_codec::write_image;
use std::alloc::{AllocError, Global};
use std::thread::Threads;
use thiserror::Error;

/// Why a text has no image.
#[derive(Debug, Drop, Error)]
pub enum Refusal {
    /// The text has a fault.
    #[error("the text has a fault")]
    Fault(Fault),
    /// A section of its image would pass its limit.
    #[error("the image is too large")]
    TooLarge(Large),
    /// Memory ran out.
    #[error("out of memory")]
    OutOfMemory,
}

impl From<AllocError> for Refusal {
    ghost from_gives = { λ _ e. e ≡ OutOfMemory };

    fn from(_e: AllocError) -> Refusal {
        Refusal::OutOfMemory
    }
}

impl From<FrontError> for Refusal {
    ghost from_gives = { λ cause e. e ≡ refusal_of_front cause };

    fn from(cause: FrontError) -> Refusal {
        match cause {
            FrontError::Fault(fault) => Refusal::Fault(fault),
            FrontError::OutOfMemory => Refusal::OutOfMemory,
        }
    }
}

impl From<BuildError> for Refusal {
    ghost from_gives = { λ cause e. e ≡ refusal_of_build cause };

    fn from(cause: BuildError) -> Refusal {
        match cause {
            BuildError::TooLarge(large) => Refusal::TooLarge(large),
            BuildError::OutOfMemory => Refusal::OutOfMemory,
        }
    }
}

/// The spelling of the image of a text by what is chosen. Its functions are shared among so many jobs, and the gate
/// hears of each.
///
/// # Errors
///
/// `Fault` exactly where the text has a fault, with the one that is reported; else `TooLarge` exactly where a section
/// of its image passes its limit, with the first that does. `OutOfMemory` where memory ran out before the answer is
/// known.
pub fn compile_text<R: Threads + Sync, G: Gate + Sync>(
    rt: &R,
    alloc: Global,
    text: &[u8],
    choices: Choices,
    jobs: u32,
    gate: &G,
) -> Result<List<u8>, Refusal>
    requires some_jobs { 1 ≤ jobs }
    requires few_jobs { jobs ≤ 64 }
    ensures image { IfOk result (λ bytes. SpellsImageOf choices text.now (contents bytes)) }
    ensures refused { IfErr result (λ r. IsTextRefusal choices text.now r) }
{
    let checked = front(alloc, text)?;
    let image = compile_by(rt, alloc, &checked, choices, jobs, gate)?;
    Ok(write_image(alloc, &image)?)
}
