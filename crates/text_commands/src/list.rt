//! Listing a stage of the compiler for a text.
ghost use Rattle.std.specs.Prelude.{IfOk, IfErr};
ghost use Rattle.bs_words.specs.Contents.{contents};
ghost use Rattle.text_commands.specs.Listing.{IsListingOf, IsListRefusal};

use crate::compile::Refusal;
use bs_words::List;
use choices::Choices;
use cmm_front::front;
use file_compile::stage_by;
use stages::Stage;
use std::alloc::Global;
use std::thread::Threads;

/// The text of a stage of a text's file, by what is chosen.
///
/// # Errors
///
/// `Fault` exactly where the text has a fault, with the one that is reported; else `TooLarge` exactly where the stage is
/// one of the image, and a section of the image passes its limit, with the first that does. `OutOfMemory` where memory
/// ran out before the answer is known.
pub fn list_text<R: Threads + Sync>(
    rt: &R,
    alloc: Global,
    text: &[u8],
    choices: Choices,
    stage: Stage,
) -> Result<List<u8>, Refusal>
    ensures listed { IfOk result (λ bytes. IsListingOf choices stage text.now (contents bytes)) }
    ensures refused { IfErr result (λ r. IsListRefusal choices stage text.now r) }
{
    let checked = front(alloc, text)?;
    Ok(stage_by(rt, alloc, &checked, choices, stage)?)
}
