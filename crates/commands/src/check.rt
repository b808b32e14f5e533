//! The command `check`: a Cmm text in, what is reported of a run of one of its functions out.
ghost use Rattle.std.specs.Prelude.{◌≡◌, ◌<◌, ℕ, List, All, IfOk, IfErr};
ghost use Rattle.bs_words.specs.Contents.{contents};
ghost use Rattle.command_line.specs.Command.{IsCommand, CheckCommand};
ghost use Rattle.command_line.specs.View.{check_view};
ghost use Rattle.commands.specs.Compile.{ReadsText};
ghost use Rattle.commands.specs.Effects.{side, effects};
ghost use Rattle.commands.specs.Ends.{CommandEnds};
ghost use Rattle.commands.specs.Refusal.{IsCheckFailure, failure_of_unread};
ghost use Rattle.commands.specs.declared.check.CheckFailure.TheVariants.{Text};
ghost use Rattle.text_commands.specs.Check.{IsCheckOf};
ghost use Rattle.text_commands.specs.CheckRefusal.{IsCheckRefusal};

use crate::line::{READ_FAULT, WRITE_FAULT, WRITTEN, tell, tell_check_refusal};
use crate::text::{Unread, read_text};
use bs_io::{Sink, Source, write_all};
use command_line::CheckWords;
use std::alloc::Global;
use std::thread::Threads;
use text_commands::{CheckRefusal, Gate, check_text};

/// Why nothing is reported of a source.
#[derive(Drop)]
pub enum CheckFailure {
    /// A read of the source failed.
    ReadFault,
    /// Nothing is reported of the text that was read; or memory ran out, perhaps before all was read.
    Text(CheckRefusal),
}

impl From<Unread> for CheckFailure {
    ghost from_gives = { λ why r. r ≡ failure_of_unread why };

    fn from(why: Unread) -> Self {
        match why {
            Unread::ReadFault => CheckFailure::ReadFault,
            Unread::OutOfMemory => CheckFailure::Text(CheckRefusal::OutOfMemory),
        }
    }
}

impl From<CheckRefusal> for CheckFailure {
    ghost from_gives = { λ why r. r ≡ Text why };

    fn from(why: CheckRefusal) -> Self {
        CheckFailure::Text(why)
    }
}

/// Writes what is reported of the run of the text that a source holds, or the line that says why
/// there is nothing, and answers the status.
pub fn check<R: Threads + Sync, S: Source, K: Sink, E: Sink, G: Gate + Sync>(
    rt: &R,
    alloc: Global,
    words: &CheckWords,
    source: &mut S,
    out: &mut K,
    err: &mut E,
    gate: &G,
) -> u8
    ensures { (line : List (List ℕ))
        → IsCommand line (CheckCommand (check_view words.now))
        → CommandEnds line
        (effects (side S.left S.faults source.old source.new)
        (side K.held K.faults out.old out.new) (side E.held E.faults err.old err.new))
        result }
{
    match check_source(rt, alloc, words, source, gate) {
        Ok(told) => match write_all(out, told.as_slice()) {
            Ok(()) => WRITTEN,
            Err(_) => WRITE_FAULT,
        },
        Err(CheckFailure::ReadFault) => tell(err, b"cmmc: read fault\n", READ_FAULT),
        Err(CheckFailure::Text(why)) => tell_check_refusal(alloc, err, &why),
    }
}

/// What is reported of the run of the text that a source holds. At most one byte past the longest
/// text is read.
fn check_source<R: Threads + Sync, S: Source, G: Gate + Sync>(
    rt: &R,
    alloc: Global,
    words: &CheckWords,
    source: &mut S,
    gate: &G,
) -> Result<bs_words::List<u8>, CheckFailure>
    ensures told { IfOk result (λ lines.
        ReadsText (λ text. IsCheckOf (check_view words.now) text (contents lines))
        (side S.left S.faults source.old source.new)) }
    ensures failed { IfErr result (λ r.
        IsCheckFailure (check_view words.now) (side S.left S.faults source.old source.new)
        r) }
{
    let text = read_text(alloc, source)?;
    Ok(check_bytes(rt, alloc, text.as_slice(), words, gate)?)
}

/// What is reported of the run of a text, whose bytes are bytes.
fn check_bytes<R: Threads + Sync, G: Gate + Sync>(
    rt: &R,
    alloc: Global,
    text: &[u8],
    words: &CheckWords,
    gate: &G,
) -> Result<bs_words::List<u8>, CheckRefusal>
    ensures are_bytes { All (λ b. b < 256) text.now }
    ensures told { IfOk result (λ lines.
        IsCheckOf (check_view words.now) text.now (contents lines)) }
    ensures refused { IfErr result (λ r. IsCheckRefusal (check_view words.now) text.now r) }
{
    check_text(rt, alloc, text, words, gate)
}
