//! A function made tidy.
//!
//! It looks again until no line goes. Walks are searched again only where a
//! move of a location to itself went, which may be all that read another. When other lines go, walks still
//! come to those that stay.
ghost use Rattle.std.specs.Prelude.{IfOk};
ghost use Rattle.lin_laws.specs.Graph.{AreNumbered};
ghost use Rattle.lin_tidy_rules.specs.Tidied.{IsTidied};
ghost use Rattle.lin_tidy.specs.Sizes.{HasTidyRoom};

use crate::redirecting::redirect_jumps;
use crate::turning::turn_loops;
use lin_ir::Lin;
use lin_unused::{leave_out, no_move_goes, none_set, useless_lines, useless_lines_left};
use std::alloc::{AllocError, Global};

/// The function made tidy: its jumps go at once where others lead, a branch is repeated right after
/// each exit that leads to it, each line that is left is reached by some walk, each move of a location
/// to itself is read later, and no jump leads to where control comes without it. Labels and the
/// entries of handlers stay.
///
/// Each location has to be a register of the machine or one of the function's slots, and there have
/// to be numbers for labels, lines and slots (`has_room`). Walks are searched once. When lines went,
/// walks still come to the others, so they are searched again only where a move of a location to
/// itself went, which may have read what another moved. The only error is want of memory, which more
/// positions of walks than there are numbers are too.
pub fn tidy(alloc: Global, lin: Lin) -> Result<Lin, AllocError>
    requires numbered { AreNumbered lin }
    requires room { HasTidyRoom lin }
    ensures { IfOk result (IsTidied lin) }
{
    let redirected = redirect_jumps(alloc, lin)?;
    let mut now = turn_loops(alloc, redirected)?;
    let mut flags = useless_lines(alloc, &now)?;
    while !none_set(flags.as_slice()) {
        let moves_stay = no_move_goes(now.code.as_slice(), flags.as_slice());
        now = leave_out(alloc, now, flags.as_slice())?;
        flags = useless_lines_left(alloc, &now, moves_stay)?;
    }
    Ok(now)
}
