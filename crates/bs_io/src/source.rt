//! What bytes are read from.
ghost use Rattle.std.specs.Prelude.{◌≡◌, ◌≤◌, ◌<◌, ℕ, List, Option, length, take, IfOk, OnErr};
ghost use Rattle.std.specs.Io.KnownBytes.{Consumes, Keeps, IsAtEnd};
ghost use Rattle.bs_io.specs.Faults.{Risen};

/// A read or a write failed, and its fault was counted.
#[derive(Clone, Copy)]
pub struct Failed;

/// Bytes to be read, some of which may be known, and a count of faults that never falls.
///
/// A count that is at the greatest `u64` stays there, and counts as risen.
pub trait Source {
    // The bytes that are left, where the source shows them. Once shown, they stay shown.
    ghost left: { Self → Option (List ℕ) };

    // How many reads have failed.
    ghost faults: { Self → ℕ };

    /// Moves bytes from the front of what is left to the front of `into`, and answers how many. It
    /// answers 0 for a nonempty buffer only at the end. A read that fails moves nothing and is counted.
    fn read(&mut self, into: &mut [u8]) -> Result<usize, Failed>
        ensures within { IfOk result (λ count. count ≤ length into.new) }
        ensures taken { IfOk result (λ count.
            Consumes (left self.old) (left self.new) (take count into.new)) }
        ensures end { IfOk result (λ count. count ≡ 0 → 0 < length into.new →
            IsAtEnd (left self.new)) }
        ensures kept { OnErr result (Keeps (left self.old) (left self.new)) }
        ensures failed { OnErr result (Risen (faults self.old) (faults self.new)) }
        ensures never_falls { faults self.old ≤ faults self.new };
}
