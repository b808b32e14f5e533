//! What bytes are written to.
ghost use Rattle.std.specs.Prelude.{◌≡◌, ◌≤◌, ◌<◌, ℕ, List, Option, length, take, IfOk, OnErr};
ghost use Rattle.std.specs.Io.KnownBytes.{Appends, Keeps};
ghost use Rattle.bs_io.specs.Faults.{Risen};

use crate::source::Failed;

/// Bytes that were written, which may be known, and a count of faults that never falls.
///
/// A count that is at the greatest `u64` stays there, and counts as risen.
pub trait Sink {
    // The bytes that the sink holds, where it shows them. Once shown, they stay shown.
    ghost held: { Self → Option (List ℕ) };

    // How many writes have failed.
    ghost faults: { Self → ℕ };

    /// Appends bytes from the front of `piece`, and answers how many. A write that fails, or that takes
    /// none of a nonempty piece, is counted. One that fails appends nothing.
    fn write(&mut self, piece: &[u8]) -> Result<usize, Failed>
        ensures within { IfOk result (λ count. count ≤ length piece.now) }
        ensures appended { IfOk result (λ count.
            Appends (held self.old) (held self.new) (take count piece.now)) }
        ensures kept { OnErr result (Keeps (held self.old) (held self.new)) }
        ensures failed { OnErr result (Risen (faults self.old) (faults self.new)) }
        ensures stuck { IfOk result (λ count. count ≡ 0 → 0 < length piece.now →
            Risen (faults self.old) (faults self.new)) }
        ensures never_falls { faults self.old ≤ faults self.new };
}
