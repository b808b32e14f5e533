//! Whole reads and whole writes.
//!
//! These are loops over `read` and `write`: std's whole reads and writes say little after an error.
ghost use Rattle.std.specs.Prelude.{◌≡◌, ◌+◌, ◌-◌, ◌^◌, ◌≤◌, ◌<◌, length, take, drop, IfOk, OnOk, IfErr, OnErr, IfSome, vec_len, Err};
ghost use Rattle.std.specs.Io.KnownBytes.{Consumes, Keeps, Appends, IsAtEnd};
ghost use Rattle.bs_words.specs.Contents.{contents};
ghost use Rattle.bs_io.specs.Faults.{Risen};
ghost use Rattle.bs_io.specs.declared.whole.InFault.TheVariants.{Read, OutOfMemory};
ghost use Rattle.bs_io.specs.Whole.{AppendsPart, StopsShort};

use crate::sink::Sink;
use crate::source::{Failed, Source};
use bs_words::List;
use std::alloc::{AllocError, Global};
use thiserror::Error;

/// Why a whole read has no answer.
#[derive(Debug, Drop, Error)]
pub enum InFault {
    /// A read failed.
    #[error("a read failed")]
    Read,
    /// More bytes came than the limit allows. It carries the bytes that were taken, one more than the limit.
    #[error("the input is longer than the limit")]
    Long(List<u8>),
    /// Memory ran out.
    #[error("out of memory")]
    OutOfMemory,
}

impl From<AllocError> for InFault {
    ghost from_gives = { λ _ e. e ≡ OutOfMemory };

    fn from(_e: AllocError) -> InFault {
        InFault::OutOfMemory
    }
}

impl From<Failed> for InFault {
    ghost from_gives = { λ _ e. e ≡ Read };

    fn from(_e: Failed) -> InFault {
        InFault::Read
    }
}

/// Why a whole write was cut off.
#[derive(Debug, Drop, Error)]
pub enum OutFault {
    /// A write failed, or took nothing.
    #[error("a write failed")]
    Write,
}

// The most bytes that one read is given room for: the limit is far above most inputs.
const CHUNK: usize = 64 * 1024;

/// Reads a source to its end, which has to come within `limit` bytes.
///
/// # Errors
///
/// `Long` where more bytes came, with those that were taken, one more than the limit; `Read` where a read failed;
/// `OutOfMemory` where memory ran out. After the last two at most `limit` bytes were taken, and they are lost.
pub fn read_all<S: Source>(alloc: Global, source: &mut S, limit: u64) -> Result<List<u8>, InFault>
    requires { limit < 2 ^ 64 - 1 }
    ensures all { IfOk result (λ bytes.
        IfSome (S.left source.old) (λ left. contents bytes ≡ left)) }
    ensures taken { IfOk result (λ bytes.
        Consumes (S.left source.old) (S.left source.new) (contents bytes)) }
    ensures ended { OnOk result (IsAtEnd (S.left source.new)) }
    ensures within { IfOk result (λ bytes. length (contents bytes) ≤ limit) }
    ensures short { IfErr result (StopsShort (S.left source.old) (S.left source.new) limit) }
    ensures failed { result ≡ Err InFault.Read → Risen (S.faults source.old) (S.faults source.new) }
    ensures never_falls { S.faults source.old ≤ S.faults source.new }
{
    let most = limit as usize + 1;
    let mut buffer = Vec::new(alloc);
    let mut filled = 0;
    while filled < most {
        make_room(&mut buffer, filled, most)?;
        let count = read_at(source, buffer.as_mut_slice(), filled)?;
        if count == 0 {
            buffer.truncate(filled);
            return Ok(List::from_vec(buffer));
        }
        filled += count;
    }
    buffer.truncate(filled);
    Err(InFault::Long(List::from_vec(buffer)))
}

// Makes the buffer longer than what is filled, and no longer than `most`, by zeros. What an earlier
// read left unfilled stays as it is.
fn make_room(buffer: &mut Vec<u8>, filled: usize, most: usize) -> Result<(), AllocError>
    requires ordered { filled ≤ vec_len buffer.old }
    requires within { vec_len buffer.old ≤ most }
    requires short { filled < most }
    ensures room { OnOk result (filled < vec_len buffer.new) }
    ensures length { vec_len buffer.new ≤ most }
    ensures kept { OnOk result (take filled buffer.new.items ≡ take filled buffer.old.items) }
{
    if filled < buffer.len() {
        return Ok(());
    }
    let grown = if most - filled < CHUNK {
        most
    } else {
        filled + CHUNK
    };
    buffer.resize(grown, 0)
}

// One read, by itself: its clause speaks of the bytes from `at` on, and not of what was read before.
fn read_at<S: Source>(source: &mut S, buffer: &mut [u8], at: usize) -> Result<usize, Failed>
    requires { at < length buffer.old }
    ensures front { take at buffer.new ≡ take at buffer.old }
    ensures fits { IfOk result (λ count. at + count ≤ length buffer.new) }
    ensures taken { IfOk result (λ count.
        Consumes (S.left source.old) (S.left source.new) (take count
        (drop at buffer.new))) }
    ensures end { IfOk result (λ count. count ≡ 0 → IsAtEnd (S.left source.new)) }
    ensures kept { OnErr result (Keeps (S.left source.old) (S.left source.new)) }
    ensures failed { OnErr result (Risen (S.faults source.old) (S.faults source.new)) }
    ensures never_falls { S.faults source.old ≤ S.faults source.new }
{
    source.read(&mut buffer[at..])
}

/// Writes all the bytes, in as few writes as the sink allows. It takes no memory.
///
/// # Errors
///
/// `OutFault::Write` where a write failed or took nothing: the sink then has its old bytes and some of `bytes`, from
/// their front and not all of them.
pub fn write_all<K: Sink>(sink: &mut K, bytes: &[u8]) -> Result<(), OutFault>
    ensures all { OnOk result (Appends (K.held sink.old) (K.held sink.new) bytes.now) }
    ensures part { OnErr result (AppendsPart (K.held sink.old) (K.held sink.new) bytes.now) }
    ensures failed { OnErr result (Risen (K.faults sink.old) (K.faults sink.new)) }
    ensures never_falls { K.faults sink.old ≤ K.faults sink.new }
{
    let mut rest = bytes;
    while !rest.is_empty() {
        match sink.write(rest) {
            Ok(0) | Err(Failed) => return Err(OutFault::Write),
            Ok(count) => rest = &rest[count..],
        }
    }
    Ok(())
}
