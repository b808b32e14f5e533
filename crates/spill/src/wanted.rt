//! Which registers are wanted before each place.
ghost use Rattle.std.specs.Prelude.{◌≡◌, ◌&&◌, IfOk};
ghost use Rattle.bs_bits.specs.Set.{has};
ghost use Rattle.dataflow.specs.Flow.{IsFlowFormed};
ghost use Rattle.dataflow.specs.Rows.{set_in_row};
ghost use Rattle.liveness.specs.Nodes.{AreLivenessNodes};
ghost use Rattle.mach_laws.specs.Graph.{IsFlowOf};
ghost use Rattle.spill.specs.Graphs.{reloaded_among, wanted_uses, IsWantedPlace};
ghost use Rattle.spill.specs.Tables.{AreLost, AreWanted};
ghost use Rattle.mach_ir.specs.Places.{is_unset_location};

use crate::lists::copy_of;
use bs_words::List;
use dataflow::{Flow, Place, Rows, bare_place, live};
use liveness::Backward;
use mach_ir::{Mach, Reg};
use std::alloc::{AllocError, Global};

/// Whether the operand is reloaded at the place: its place is open, and it is lost there.
pub fn is_reloaded(lost: &Rows, place: usize, reg: &Reg) -> bool
    ensures { result ≡ (is_unset_location reg.now.loc && has (set_in_row lost.now.rows.items place) reg.now.number) }
{
    reg.is_open() && lost.contains(place, reg.number)
}

/// The numbers of the operands that are reloaded at the place.
fn reloaded_among(
    alloc: Global,
    lost: &Rows,
    place: usize,
    args: &[Reg],
) -> Result<Vec<u32>, AllocError>
    ensures { IfOk result (λ found.
        found.items ≡ reloaded_among lost.now.rows.items place args.now) }
{
    let mut found = Vec::new(alloc);
    for reg in args {
        if is_reloaded(lost, place, reg) {
            found.push(reg.number)?;
        }
    }
    Ok(found)
}

/// The place of the graph of liveness as one at which reloaded operands alone are read.
fn wanted_place(
    alloc: Global,
    lost: &Rows,
    at: usize,
    args: &[Reg],
    place: &Place,
) -> Result<Place, AllocError>
    ensures { IfOk result (IsWantedPlace lost.now.rows.items at args.now place.now) }
{
    let next = copy_of(alloc, place.next.as_slice())?;
    let aside = copy_of(alloc, place.aside.as_slice())?;
    let reads = reloaded_among(alloc, lost, at, args)?;
    let writes = copy_of(alloc, place.writes.as_slice())?;
    Ok(Place {
        next: List::from_vec(next),
        aside: List::from_vec(aside),
        reads: List::from_vec(reads),
        writes: List::from_vec(writes),
    })
}

/// All places of the graph.
fn wanted_places(
    alloc: Global,
    mach: &Mach,
    lost: &Rows,
    flow: &Flow,
) -> Result<Vec<Place>, AllocError>
    requires { IsFlowOf mach.now flow.now }
    ensures { IfOk result (λ nodes.
        AreLivenessNodes mach.now (wanted_uses mach.now lost.now.rows.items) mach.now.code nodes.items) }
{
    let code = mach.code.as_slice();
    let mut nodes = Backward::with_capacity(alloc, flow.places.len())?;
    nodes.push(bare_place(alloc))?;
    let mut left = code.len();
    while left > 0 {
        left -= 1;
        let args = code[left].args.as_slice();
        let node = wanted_place(alloc, lost, left, args, &flow.places[left])?;
        nodes.push(node)?;
    }
    Ok(nodes.into_vec())
}

/// The registers that are wanted before each place: those of which some walk leads from there to where
/// they are reloaded, with no write of them before. The only error is want of memory.
pub fn wanted(alloc: Global, mach: &Mach, lost: &Rows, flow: &Flow) -> Result<Rows, AllocError>
    requires flow { IsFlowOf mach.now flow.now }
    requires formed { IsFlowFormed flow.now }
    requires lost { AreLost mach.now lost.now.rows.items }
    ensures { IfOk result (λ rows. AreWanted mach.now rows.rows.items) }
{
    let nodes = wanted_places(alloc, mach, lost, flow)?;
    let flow = Flow {
        places: List::from_vec(nodes),
        bound: flow.bound,
    };
    let rows = live(alloc, &flow)?;
    Ok(rows)
}
