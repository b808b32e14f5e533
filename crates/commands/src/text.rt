//! Reading the text of a source.
//!
//! At most one byte past the limit is read: a longer input is no text.
ghost use Rattle.std.specs.Prelude.{IfOk, IfErr};
ghost use Rattle.bs_words.specs.Contents.{contents};
ghost use Rattle.bs_fault.specs.Limits.{longest_text};
ghost use Rattle.commands.specs.Effects.{side, IsRead};
ghost use Rattle.commands.specs.Refusal.{IsTextUnread};

use bs_io::{InFault, Source, read_all};
use bs_words::List;
use cmm_limits::LONGEST_TEXT;
use std::alloc::Global;

/// Why a text was not read.
#[derive(Drop)]
pub enum Unread {
    /// A read of the source failed.
    ReadFault,
    /// Memory ran out.
    OutOfMemory,
}

/// The bytes that a source holds, up to one past the longest text, which no text has.
///
/// # Errors
///
/// `ReadFault` where a read of the source failed; `OutOfMemory` where memory ran out.
pub fn read_text<S: Source>(alloc: Global, source: &mut S) -> Result<List<u8>, Unread>
    ensures read { IfOk result (λ bytes.
        IsRead longest_text (side S.left S.faults source.old source.new) (contents bytes)) }
    ensures unread { IfErr result (λ r.
        IsTextUnread (side S.left S.faults source.old source.new) r) }
{
    match read_all(alloc, source, LONGEST_TEXT) {
        Ok(text) => Ok(text),
        Err(InFault::Long(text)) => Ok(text),
        Err(InFault::Read) => Err(Unread::ReadFault),
        Err(InFault::OutOfMemory) => Err(Unread::OutOfMemory),
    }
}
