//! A sink some of whose writes take nothing.
ghost use Rattle.std.specs.Prelude.{◌≡◌, ◌≤◌, ◌<◌, length, None, IfOk, OnErr};
ghost use Rattle.bs_io.specs.Faults.{Risen};

use bs_io::{Failed, MemSink, Sink};

/// A sink whose writes with the numbers in `sticks`, counted from 0, take nothing; each of these is a fault. The others
/// go to the sink below.
#[derive(Drop)]
pub struct Sticking {
    below: MemSink,
    sticks: Vec<u64>,
    calls: u64,
    faults: u64,
}

impl Sticking {
    pub(crate) fn new(below: MemSink, sticks: Vec<u64>) -> Sticking {
        Sticking {
            below,
            sticks,
            calls: 0,
            faults: 0,
        }
    }

    /// The bytes that it holds.
    pub fn bytes(&self) -> &[u8] {
        self.below.bytes()
    }
}

impl Sink for Sticking {
    ghost held = { λ _. None };

    ghost faults = { λ s. s.faults };

    fn write(&mut self, piece: &[u8]) -> Result<usize, Failed>
        ensures within { IfOk result (λ count. count ≤ length piece.now) }
        ensures failed { OnErr result (Risen self.old.faults self.new.faults) }
        ensures stuck { IfOk result (λ count. count ≡ 0 → 0 < length piece.now →
            Risen self.old.faults self.new.faults) }
        ensures never_falls { self.old.faults ≤ self.new.faults }
    {
        let call = self.calls;
        self.calls = call.saturating_add(1);
        if self.sticks.as_slice().contains(&call) {
            self.faults = self.faults.saturating_add(1);
            return Ok(0);
        }
        match self.below.write(piece) {
            Ok(count) if count > 0 || piece.is_empty() => Ok(count),
            _ => {
                self.faults = self.faults.saturating_add(1);
                Err(Failed)
            }
        }
    }
}
