//! The edge to std: a source over a reader and a sink over a writer. They show no bytes.
ghost use Rattle.std.specs.Prelude.{◌≡◌, ◌≤◌, ◌<◌, length, None, IfOk, OnErr};
ghost use Rattle.std.specs.Io.KnownBytes.{ReadConsumes, WriteAppends};
ghost use Rattle.bs_io.specs.Adapters.{reader_of, writer_of};
ghost use Rattle.bs_io.specs.Faults.{Risen};

use crate::sink::Sink;
use crate::source::{Failed, Source};
use std::io::{Read, Write};

/// A source over a reader. Its count rises at each error of the reader. It shows no bytes.
#[derive(Drop)]
pub struct ReadSource<R> {
    reader: R,
    faults: u64,
}

impl<R: Read> ReadSource<R> {
    /// A source that reads from `reader`, with no fault counted.
    pub fn new(reader: R) -> Self
        ensures reader { reader_of result ≡ reader }
        ensures faults { ⟦<ReadSource<R> as Source>⟧.faults result ≡ 0 }
    {
        ReadSource { reader, faults: 0 }
    }

    /// How many reads have failed, up to the greatest `u64`.
    pub fn faults(&self) -> u64
        ensures { result ≡ ⟦<ReadSource<R> as Source>⟧.faults self.now }
    {
        self.faults
    }
}

impl<R: Read> Source for ReadSource<R> {
    ghost left = { λ _. None };

    ghost faults = { λ s. s.faults };

    fn read(&mut self, into: &mut [u8]) -> Result<usize, Failed>
        // What the reader shows of its bytes holds of this read.
        ensures bytes { ReadConsumes (R.remaining (reader_of self.old)) (R.remaining
            (reader_of self.new)) result into.new }

        // The trait's clauses, where no byte is shown.
        ensures within { IfOk result (λ count. count ≤ length into.new) }
        ensures failed { OnErr result (Risen self.old.faults self.new.faults) }
        ensures never_falls { self.old.faults ≤ self.new.faults }
    {
        match self.reader.read(into) {
            Ok(count) => Ok(count),
            Err(_) => {
                self.faults = self.faults.saturating_add(1);
                Err(Failed)
            }
        }
    }
}

/// A sink over a writer. Its count rises at each error of the writer, and where it takes no byte of a
/// nonempty piece. It shows no bytes.
#[derive(Drop)]
pub struct WriteSink<W> {
    writer: W,
    faults: u64,
}

impl<W: Write> WriteSink<W> {
    /// A sink that writes to `writer`, with no fault counted.
    pub fn new(writer: W) -> Self
        ensures writer { writer_of result ≡ writer }
        ensures faults { ⟦<WriteSink<W> as Sink>⟧.faults result ≡ 0 }
    {
        WriteSink { writer, faults: 0 }
    }

    /// How many writes have failed or taken nothing, up to the greatest `u64`.
    pub fn faults(&self) -> u64
        ensures { result ≡ ⟦<WriteSink<W> as Sink>⟧.faults self.now }
    {
        self.faults
    }
}

impl<W: Write> Sink for WriteSink<W> {
    ghost held = { λ _. None };

    ghost faults = { λ s. s.faults };

    fn write(&mut self, piece: &[u8]) -> Result<usize, Failed>
        // What the writer shows of its bytes holds of this write.
        ensures bytes { WriteAppends (W.contents (writer_of self.old)) (W.contents
            (writer_of self.new)) result piece.now }

        // The trait's clauses, where no byte is shown.
        ensures within { IfOk result (λ count. count ≤ length piece.now) }
        ensures failed { OnErr result (Risen self.old.faults self.new.faults) }
        ensures stuck { IfOk result (λ count. count ≡ 0 → 0 < length piece.now →
            Risen self.old.faults self.new.faults) }
        ensures never_falls { self.old.faults ≤ self.new.faults }
    {
        match self.writer.write(piece) {
            Ok(count) if count > 0 || piece.is_empty() => Ok(count),
            _ => {
                self.faults = self.faults.saturating_add(1);
                Err(Failed)
            }
        }
    }
}
