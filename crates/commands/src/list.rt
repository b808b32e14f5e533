//! The command `list`: a Cmm text in, the text of a stage of the compiler out.
//!
//! The gate that it hands in does nothing, since what it makes are texts.
ghost use Rattle.std.specs.Prelude.{◌<◌, ℕ, List, All, IfOk, IfErr};
ghost use Rattle.bs_words.specs.Contents.{contents};
ghost use Rattle.command_line.specs.Command.{IsCommand, ListCommand};
ghost use Rattle.commands.specs.Compile.{ReadsText};
ghost use Rattle.commands.specs.Effects.{side, effects};
ghost use Rattle.commands.specs.Ends.{CommandEnds};
ghost use Rattle.commands.specs.Refusal.{IsListFailure};
ghost use Rattle.text_commands.specs.Listing.{IsListingOf, IsListRefusal};

use crate::compile::Refusal;
use crate::line::{READ_FAULT, WRITE_FAULT, WRITTEN, tell, tell_refusal};
use crate::text::read_text;
use bs_io::{Sink, Source, write_all};
use choices::Choices;
use command_line::Stage;
use std::alloc::Global;
use std::thread::Threads;
use text_commands::{Refusal as TextRefusal, list_text};

/// Writes the text of a stage of the text that a source holds, by what is chosen, or the line that says why there is
/// none, and answers the status.
pub fn list<R: Threads + Sync, S: Source, K: Sink, E: Sink>(
    rt: &R,
    alloc: Global,
    choices: Choices,
    stage: Stage,
    source: &mut S,
    out: &mut K,
    err: &mut E,
) -> u8
    ensures { (line : List (List ℕ))
        → IsCommand line (ListCommand choices stage)
        → CommandEnds line
        (effects (side S.left S.faults source.old source.new)
        (side K.held K.faults out.old out.new) (side E.held E.faults err.old err.new))
        result }
{
    match list_source(rt, alloc, choices, stage, source) {
        Ok(listed) => match write_all(out, listed.as_slice()) {
            Ok(()) => WRITTEN,
            Err(_) => WRITE_FAULT,
        },
        Err(Refusal::ReadFault) => tell(err, b"cmmc: read fault\n", READ_FAULT),
        Err(Refusal::Text(why)) => tell_refusal(alloc, err, &why),
    }
}

/// The text of a stage of the text that a source holds, by what is chosen. At most one byte past the longest text is
/// read.
fn list_source<R: Threads + Sync, S: Source>(
    rt: &R,
    alloc: Global,
    choices: Choices,
    stage: Stage,
    source: &mut S,
) -> Result<bs_words::List<u8>, Refusal>
    ensures listed { IfOk result (λ bytes.
        ReadsText (λ text. IsListingOf choices stage text (contents bytes))
        (side S.left S.faults source.old source.new)) }
    ensures refused { IfErr result (λ r.
        IsListFailure choices stage (side S.left S.faults source.old source.new) r) }
{
    let text = read_text(alloc, source)?;
    Ok(list_bytes(rt, alloc, text.as_slice(), choices, stage)?)
}

/// The text of a stage of a text by what is chosen. The bytes of the text are bytes.
fn list_bytes<R: Threads + Sync>(
    rt: &R,
    alloc: Global,
    text: &[u8],
    choices: Choices,
    stage: Stage,
) -> Result<bs_words::List<u8>, TextRefusal>
    ensures are_bytes { All (λ b. b < 256) text.now }
    ensures listed { IfOk result (λ bytes. IsListingOf choices stage text.now (contents bytes)) }
    ensures refused { IfErr result (λ r. IsListRefusal choices stage text.now r) }
{
    list_text(rt, alloc, text, choices, stage)
}
