//! The command `compile`: a Cmm text in, an image out.
ghost use Rattle.std.specs.Prelude.{◌≡◌, ◌<◌, ◌≤◌, All, IfOk, IfErr};
ghost use Rattle.bs_words.specs.Contents.{contents};
ghost use Rattle.commands.specs.Compile.{ReadsText};
ghost use Rattle.commands.specs.Effects.{side};
ghost use Rattle.commands.specs.Refusal.{IsRefusalFrom, refusal_of_unread};
ghost use Rattle.commands.specs.declared.compile.Refusal.TheVariants.{Text};
ghost use Rattle.text_commands.specs.Refusal.{SpellsImageOf, IsTextRefusal};

use crate::text::{Unread, read_text};
use bs_io::Source;
use bs_words::List;
use choices::Choices;
use std::alloc::Global;
use std::thread::Threads;
use text_commands::{Gate, Refusal as TextRefusal, compile_text};

/// Why there is no image.
#[derive(Drop)]
pub enum Refusal {
    /// A read of the source failed.
    ReadFault,
    /// The text that was read has no image; or memory ran out, perhaps before all was read.
    Text(TextRefusal),
}

impl From<Unread> for Refusal {
    ghost from_gives = { λ why r. r ≡ refusal_of_unread why };

    fn from(why: Unread) -> Self {
        match why {
            Unread::ReadFault => Refusal::ReadFault,
            Unread::OutOfMemory => Refusal::Text(TextRefusal::OutOfMemory),
        }
    }
}

impl From<TextRefusal> for Refusal {
    ghost from_gives = { λ why r. r ≡ Text why };

    fn from(why: TextRefusal) -> Self {
        Refusal::Text(why)
    }
}

/// The spelling of the image of the text that a source holds, by what is chosen. Its functions are shared
/// among so many jobs. At most one byte past the longest text is read.
///
/// # Errors
///
/// `ReadFault` where a read of the source failed. `Text` with `Fault` where the text that was read has a fault, with
/// the one that is reported; with `TooLarge` where a section of its image passes its limit, with the first that does;
/// with `OutOfMemory` where memory ran out, perhaps before all was read.
pub fn compile_source<R: Threads + Sync, S: Source, G: Gate + Sync>(
    rt: &R,
    alloc: Global,
    choices: Choices,
    jobs: u32,
    source: &mut S,
    gate: &G,
) -> Result<List<u8>, Refusal>
    requires some_jobs { 1 ≤ jobs }
    requires few_jobs { jobs ≤ 64 }
    ensures image { IfOk result (λ bytes.
        ReadsText (λ text. SpellsImageOf choices text (contents bytes))
        (side S.left S.faults source.old source.new)) }
    ensures refused { IfErr result (λ r.
        IsRefusalFrom choices (side S.left S.faults source.old source.new) r) }
{
    let text = read_text(alloc, source)?;
    Ok(compile_bytes(rt, alloc, text.as_slice(), choices, jobs, gate)?)
}

/// The spelling of the image of a text by what is chosen. The bytes of the text are bytes.
fn compile_bytes<R: Threads + Sync, G: Gate + Sync>(
    rt: &R,
    alloc: Global,
    text: &[u8],
    choices: Choices,
    jobs: u32,
    gate: &G,
) -> Result<List<u8>, TextRefusal>
    requires some_jobs { 1 ≤ jobs }
    requires few_jobs { jobs ≤ 64 }
    ensures are_bytes { All (λ b. b < 256) text.now }
    ensures image { IfOk result (λ bytes. SpellsImageOf choices text.now (contents bytes)) }
    ensures refused { IfErr result (λ r. IsTextRefusal choices text.now r) }
{
    compile_text(rt, alloc, text, choices, jobs, gate)
}
