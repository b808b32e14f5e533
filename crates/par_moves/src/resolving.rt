//! The order of the walks.
ghost use Rattle.std.specs.Prelude.{◌≡◌, ◌≢◌, ◌++◌, All, AllPairs, OnOk, IfOk};
ghost use Rattle.bs_words.specs.Contents.{contents};
ghost use Rattle.par_moves.specs.Index.{HoldsPending};
ghost use Rattle.par_moves.specs.Moves.{Moves, LeavesSources, IsMadeFor, ReadsSources, OneMoreForEachCycle};
ghost use Rattle.par_moves.specs.Resolved.{drained_at, resolved_moves};

use crate::moves::{Move, SPARE};
use crate::pending::Pending;
use crate::walk::walk;
use bs_words::{List, Loc};
use std::alloc::{AllocError, Global};

/// Makes the moves that read `source`, with all that must come before them.
fn drain(
    alloc: Global,
    source: Loc,
    pending: &mut Pending,
    made: &mut Vec<Move>,
) -> Result<(), AllocError>
    ensures moves { (moves : Moves) → HoldsPending pending.old.readers moves →
        OnOk result (made.new.items ≡ made.old.items ++ (drained_at source moves).made) }
    ensures left { (moves : Moves) → HoldsPending pending.old.readers moves →
        OnOk result (HoldsPending pending.new.readers (drained_at source moves).left) }
{
    while let Some(root) = pending.take(source)? {
        walk(alloc, root, pending, made)?;
    }
    Ok(())
}

/// The moves, done one after the other, that leave each target with what its source held before.
/// Nothing else changes but t0. A move from a location to itself is not made, and each cycle of the
/// moves costs at most one more, into t0. Each move reads a source, or what an earlier move wrote. Moves that
/// read t0 come before all that write it.
///
/// The time is that of a look-up in a map for each move. The only error is want of memory.
pub fn resolve(alloc: Global, moves: &[Move]) -> Result<List<Move>, AllocError>
    requires apart { AllPairs (λ a b. a.to ≢ b.to) moves.now }
    requires not_spare { All (λ m. m.to ≢ SPARE) moves.now }
    ensures leaves { IfOk result (λ r. LeavesSources moves.now (contents r)) }
    ensures only_needed { IfOk result (λ r. All (IsMadeFor moves.now) (contents r)) }
    ensures reads { IfOk result (λ r. ReadsSources moves.now (contents r)) }
    ensures few { IfOk result (λ r. OneMoreForEachCycle moves.now (contents r)) }
    ensures defined { IfOk result (λ r. contents r ≡ resolved_moves moves.now) }
{
    let mut pending = Pending::new(alloc);
    for planned in moves {
        pending.add(alloc, *planned)?;
    }
    let mut made = Vec::new(alloc);
    drain(alloc, SPARE, &mut pending, &mut made)?;
    for planned in moves {
        drain(alloc, planned.from, &mut pending, &mut made)?;
    }
    Ok(List::from_vec(made))
}
