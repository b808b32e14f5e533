//! Whether the numbers of traps that are pushed where walks come are such as descriptors need.
ghost use Rattle.std.specs.Prelude.{◌+◌, ◌*◌, ◌<◌, ◌↔◌, All, IfOk, IsTrue};
ghost use Rattle.lin_ir.specs.Descriptors.{FitsDescriptors};
ghost use Rattle.lin_ir.specs.Formed.{AreLocated};
ghost use Rattle.lin_ir.specs.Walks.{OneDepth};
ghost use Rattle.lin_flow.specs.Sizes.{IsCountable};
ghost use Rattle.lin_laws.specs.Graph.{AreNumbered};
ghost use Rattle.lin_tests.specs.Positions.{Agree, AreAgreed, FitsDescriptorAt, ArePositions};

use lin_flow::{LineLabels, Walks, search_walks};
use lin_ir::Lin;
use lin_laws::Position;
use std::alloc::{AllocError, Global};

/// The most bytes that a descriptor can say of a frame with its traps.
const BYTES: u32 = 1048576;

/// The most slots that a frame of so many bytes can have.
const SLOTS: u32 = BYTES / 8;

/// The most traps that so many bytes can hold.
const TRAPS: usize = 65536;

/// Whether as many traps are pushed at both, if they are at one place.
fn agree(one: &Position, other: &Position) -> bool
    ensures { IsTrue result ↔ Agree one.now other.now }
{
    one.place != other.place || one.tries.len() == other.tries.len()
}

fn agrees_with_all(one: &Position, positions: &[Position]) -> bool
    ensures { IsTrue result ↔ All (Agree one.now) positions.now }
{
    positions.iter().all(|other| agree(one, other))
}

/// Whether each two positions at one place have one number of traps.
fn are_agreed(positions: &[Position]) -> bool
    ensures { IsTrue result ↔ AreAgreed positions.now }
{
    positions.iter().all(|one| agrees_with_all(one, positions))
}

/// Whether a descriptor can say the bytes of the frame with the traps that are pushed there.
fn fits(frame: u32, position: &Position) -> bool
    requires { frame < 2147483648 }
    ensures { IsTrue result ↔ FitsDescriptorAt frame position.now }
{
    let traps = position.tries.len();
    traps <= TRAPS && frame as usize + 16 * traps <= BYTES as usize
}

fn all_fit(frame: u32, positions: &[Position]) -> bool
    requires { frame < 2147483648 }
    ensures { IsTrue result ↔ All (FitsDescriptorAt frame) positions.now }
{
    positions.iter().all(|position| fits(frame, position))
}

/// The positions to which walks from the entry come.
///
/// More positions than a number can count are want of memory.
fn positions_of(alloc: Global, lin: &Lin) -> Result<Vec<Position>, AllocError>
    requires numbered { AreNumbered lin.now }
    requires countable { IsCountable lin.now }
    ensures { IfOk result (λ positions. ArePositions lin.now positions.items) }
{
    let labels = LineLabels::of_function(alloc, lin)?;
    let Walks { search, nodes: _ } = search_walks(alloc, lin, &labels)?;
    Ok(search.positions)
}

/// Whether each place has one number of pushed traps, with which every walk comes to it.
///
/// More positions than a number can count are want of memory.
pub fn has_one_depth(alloc: Global, lin: &Lin) -> Result<bool, AllocError>
    requires located { AreLocated lin.now }
    requires countable { IsCountable lin.now }
    ensures { IfOk result (λ yes. IsTrue yes ↔ OneDepth lin.now) }
{
    let positions = positions_of(alloc, lin)?;
    Ok(are_agreed(positions.as_slice()))
}

/// Whether descriptors can say the bytes of frame and traps at each place, and number the lines.
///
/// More positions than a number can count are want of memory.
pub fn is_within(alloc: Global, lin: &Lin) -> Result<bool, AllocError>
    requires { AreLocated lin.now }
    ensures { IfOk result (λ yes. IsTrue yes ↔ FitsDescriptors lin.now) }
{
    if lin.slots > SLOTS {
        return Ok(false);
    }
    if lin.code.len() > u32::MAX as usize {
        return Ok(false);
    }
    let positions = positions_of(alloc, lin)?;
    Ok(all_fit(lin.frame_bytes(), positions.as_slice()))
}
