//! A sink that keeps what is written to it.
//!
//! Its writes fail for want of memory alone, so a write fault of it is answered as that.
ghost use Rattle.std.specs.Prelude.{◌≡◌, ◌≤◌, ◌<◌, [], Some, length, take, IfOk, OnErr};
ghost use Rattle.std.specs.Io.KnownBytes.{Appends, Keeps};
ghost use Rattle.bs_io.specs.Faults.{Risen};

use bs_io::{Failed, Sink};
use std::alloc::{AllocError, Global};

/// A sink that keeps what is written to it. A write fails only for want of memory.
#[derive(Drop)]
pub struct Kept {
    bytes: Vec<u8>,
    faults: u64,
}

impl Kept {
    /// A sink that holds nothing yet. It takes no memory.
    pub fn new(alloc: Global) -> Self
        ensures { result.bytes.items ≡ [] }
    {
        Kept {
            bytes: Vec::new(alloc),
            faults: 0,
        }
    }

    /// What was written to it.
    pub fn into_bytes(self) -> Vec<u8>
        ensures { result.items ≡ self.bytes.items }
    {
        let Kept { bytes, faults: _ } = self;
        bytes
    }
}

impl Sink for Kept {
    ghost held = { λ s. Some s.bytes.items };

    ghost faults = { λ s. s.faults };

    fn write(&mut self, piece: &[u8]) -> Result<usize, Failed>
        ensures within { IfOk result (λ count. count ≤ length piece.now) }
        ensures appended { IfOk result (λ count.
            Appends (Some self.old.bytes.items) (Some self.new.bytes.items)
            (take count piece.now)) }
        ensures kept { OnErr result
            (Keeps (Some self.old.bytes.items) (Some self.new.bytes.items)) }
        ensures failed { OnErr result (Risen self.old.faults self.new.faults) }
        ensures stuck { IfOk result (λ count. count ≡ 0 → 0 < length piece.now →
            Risen self.old.faults self.new.faults) }
        ensures never_falls { self.old.faults ≤ self.new.faults }
    {
        match self.bytes.extend_from_slice(piece) {
            Ok(()) => Ok(piece.len()),
            Err(AllocError) => {
                self.faults = self.faults.saturating_add(1);
                Err(Failed)
            }
        }
    }
}
