//! The walk from one move to the moves that read its target.
ghost use Rattle.std.specs.Prelude.{◌≡◌, ◌≤◌, ◌++◌, OnOk, IfOk, reverse};
ghost use Rattle.par_moves.specs.Index.{HoldsPending, moves_held};
ghost use Rattle.par_moves.specs.Moves.{Moves};
ghost use Rattle.par_moves.specs.Resolved.{top_target, unwound_root, unwound_moves, walk_from};

use crate::moves::{Move, is_same};
use crate::pending::Pending;
use bs_words::Loc;
use std::alloc::{AllocError, Global};

/// The target of the walk's last move. The path has the moves after the root, the last one last.
fn last_target(root: Move, path: &[Move]) -> Loc
    ensures { result ≡ top_target root (reverse path.now) }
{
    match path.last() {
        Some(last) => last.to,
        None => root.to,
    }
}

/// Makes the walk's last move, which is not the root, and whose target nothing reads any more but
/// perhaps the root. If the root does, its value goes to t0 before. Gives the root as it reads then.
fn unwind(root: Move, last: Move, made: &mut Vec<Move>) -> Result<Move, AllocError>
    ensures moves { OnOk result (made.new.items ≡ made.old.items ++ unwound_moves root last) }
    ensures root { IfOk result (λ r. r ≡ unwound_root root last) }
{
    if is_same(last.to, root.from) {
        made.push(root.saved())?;
        made.push(last)?;
        return Ok(root.from_spare());
    }
    made.push(last)?;
    Ok(root)
}

/// Makes the root and every move that is reached from it, each after all that read its target.
/// The only error is want of memory.
pub fn walk(
    alloc: Global,
    root: Move,
    pending: &mut Pending,
    made: &mut Vec<Move>,
) -> Result<(), AllocError>
    ensures moves { (moves : Moves) → HoldsPending pending.old.readers moves →
        OnOk result (made.new.items ≡ made.old.items ++ (walk_from root moves).made) }
    ensures left { (moves : Moves) → HoldsPending pending.old.readers moves →
        OnOk result (HoldsPending pending.new.readers (walk_from root moves).left) }
    ensures fewer { OnOk result (moves_held pending.new.readers ≤ moves_held pending.old.readers) }
{
    let mut root = root;
    let mut path: Vec<Move> = Vec::new(alloc);
    loop {
        let here = last_target(root, path.as_slice());
        if let Some(reader) = pending.take(here)? {
            path.push(reader)?;
        } else if let Some(last) = path.pop() {
            root = unwind(root, last, made)?;
        } else {
            made.push(root)?;
            return Ok(());
        }
    }
}
