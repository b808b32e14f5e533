//! How many traps are pushed before each line.
//!
//! Walks that follow raises count them. A count that comes to a handler wherever its trap is pushed is not
//! kept where lines that no walk reaches are dropped: such a handler falls through into reached code.
ghost use Rattle.std.specs.Prelude.{length, slice_index, IfOk};
ghost use Rattle.lin_ir.specs.Descriptors.{FitsDescriptors};
ghost use Rattle.lin_ir.specs.Formed.{AreLocated};
ghost use Rattle.lin_ir.specs.Walks.{OneDepth};
ghost use Rattle.lin_flow.specs.Nodes.{AreWalkedTo};
ghost use Rattle.frame_tables.specs.Pushed.{AreTabled, AreCounted};

use lin_flow::{LineLabels, Walks, search_walks};
use lin_ir::Lin;
use lin_laws::Position;
use std::alloc::{AllocError, Global};

/// The number of traps at each of these positions, by the number of lines after it.
fn table_of(alloc: Global, lin: &Lin, positions: &[Position]) -> Result<Vec<u32>, AllocError>
    requires depth { OneDepth lin.now }
    requires within { FitsDescriptors lin.now }
    requires walked { AreWalkedTo lin.now positions.now }
    ensures { IfOk result (λ traps.
        AreTabled lin.now positions.now (length positions.now) traps.items) }
{
    let lines = lin.code.len();
    let mut traps = vec![in alloc; 0; lines]?;
    for position in positions {
        let count = position.tries.len() as u32;
        let place = position.place as usize;
        // After the last line there is none.
        if place < lines {
            traps[lines - 1 - place] = count;
        }
    }
    Ok(traps)
}

/// How many traps are pushed before each line, by the number of lines after it: 0 before a line that
/// no walk comes to.
///
/// Walks are followed with the traps that are pushed, so that a handler counts only where something
/// is raised to it. What is asked of the function is what its descriptors ask too. More positions of
/// walks than a number can count are want of memory.
pub fn pushed_traps(alloc: Global, lin: &Lin) -> Result<Vec<u32>, AllocError>
    requires located { AreLocated lin.now }
    requires depth { OneDepth lin.now }
    requires within { FitsDescriptors lin.now }
    ensures { IfOk result (λ traps. AreCounted lin.now (λ left. slice_index traps.items left)) }
{
    let labels = LineLabels::of_function(alloc, lin)?;
    let Walks { search, nodes: _ } = search_walks(alloc, lin, &labels)?;
    let traps = table_of(alloc, lin, search.positions.as_slice())?;
    Ok(traps)
}
