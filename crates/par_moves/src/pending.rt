//! The moves that are still to be made, by their sources.
ghost use Rattle.std.specs.Prelude.{◌≡◌, ◌+◌, [], IfOk, OnOk, MatchOption};
ghost use Rattle.par_moves.specs.Index.{HoldsPending, key_of, moves_held};
ghost use Rattle.par_moves.specs.Moves.{Moves};
ghost use Rattle.par_moves.specs.Resolved.{added, first_reader, others};

use crate::moves::{Move, is_same};
use bs_words::Loc;
use std::alloc::{AllocError, Global};
use std::collections::BTreeMap;

/// Pending moves: under the key of each location those that read it, the next one last.
#[derive(Drop)]
pub struct Pending {
    /// The moves by the key of the location that they read.
    pub readers: BTreeMap<u64, Vec<Move>>,
}

/// A number for each location, no two the same.
fn key(place: Loc) -> u64
    ensures { result ≡ key_of place }
{
    match place {
        Loc::Unset => 0,
        Loc::Machine(register) => 2 * u64::from(register) + 1,
        Loc::Slot(slot) => 2 * u64::from(slot) + 2,
    }
}

impl Pending {
    /// No move. It takes no memory.
    pub fn new(alloc: Global) -> Self
        ensures { HoldsPending result.readers [] }
    {
        Pending {
            readers: BTreeMap::new(alloc),
        }
    }

    /// Adds a move, unless its source is its target. It is the next among those with its source.
    /// The only error is want of memory.
    pub fn add(&mut self, alloc: Global, planned: Move) -> Result<(), AllocError>
        ensures { (moves : Moves) → HoldsPending self.old.readers moves →
            OnOk result (HoldsPending self.new.readers (added planned moves)) }
    {
        if is_same(planned.from, planned.to) {
            return Ok(());
        }
        let key = key(planned.from);
        let mut row = self.readers.remove(&key).unwrap_or(Vec::new(alloc));
        row.push(planned)?;
        self.readers.insert(key, row)?;
        Ok(())
    }

    /// Takes the next move that reads `source`, if there is one. The only error is want of memory.
    pub fn take(&mut self, source: Loc) -> Result<Option<Move>, AllocError>
        ensures taken { (moves : Moves) → HoldsPending self.old.readers moves → IfOk result (λ found.
            (found ≡ first_reader source moves) × HoldsPending self.new.readers (others source moves)) }
        ensures fewer { IfOk result (λ found.
            MatchOption found (moves_held self.new.readers ≡ moves_held self.old.readers)
            (λ _. moves_held self.new.readers + 1 ≡ moves_held self.old.readers)) }
    {
        let key = key(source);
        let Some(mut row) = self.readers.remove(&key) else {
            return Ok(None);
        };
        let found = row.pop();
        self.readers.insert(key, row)?;
        Ok(found)
    }
}
