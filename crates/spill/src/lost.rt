//! Which registers are lost before each place.
ghost use Rattle.std.specs.Prelude.{◌↔◌, IsTrue, IfOk};
ghost use Rattle.dataflow.specs.Flow.{IsFlowFormed};
ghost use Rattle.mach_ir.specs.Graph.{IsLiveMap};
ghost use Rattle.mach_laws.specs.Graph.{IsFlowOf};
ghost use Rattle.spill.specs.Graphs.{LivesUnwritten, AreLivingOver, AreMade, IsLostPlace, AreLostNodes};
ghost use Rattle.spill.specs.Tables.{AreLost};

use crate::lists::{copy_of, joined};
use bs_words::List;
use dataflow::{Flow, Place, Rows, bare_place, reaching};
use liveness::Backward;
use mach_ir::{LiveMap, Mach, MachOp};
use std::alloc::{AllocError, Global};

/// Whether the number is live at the place after an instruction which writes others.
fn lives_over(live: &LiveMap, after: usize, written: &[u32], number: u32) -> bool
    ensures { IsTrue result ↔ LivesUnwritten live.now.before.rows.items after written.now number }
{
    live.before.contains(after, number) && !written.contains(&number)
}

/// The numbers below the bound that are live at the place after an instruction which writes others.
fn living_over(
    alloc: Global,
    live: &LiveMap,
    after: usize,
    bound: u32,
    written: &[u32],
) -> Result<Vec<u32>, AllocError>
    ensures { IfOk result (λ found.
        AreLivingOver live.now.before.rows.items after bound written.now found.items) }
{
    let mut found = Vec::new(alloc);
    for number in 0..bound {
        if lives_over(live, after, written, number) {
            found.push(number)?;
        }
    }
    Ok(found)
}

/// The numbers that live over the instruction, if it destroys every colour.
fn made_at(
    alloc: Global,
    live: &LiveMap,
    after: usize,
    bound: u32,
    op: &MachOp,
    written: &[u32],
) -> Result<Vec<u32>, AllocError>
    ensures { IfOk result (λ found.
        AreMade live.now.before.rows.items after bound written.now op.now found.items) }
{
    if op.destroys_everything() {
        let found = living_over(alloc, live, after, bound, written)?;
        Ok(found)
    } else {
        Ok(Vec::new(alloc))
    }
}

/// A place of the graph of liveness, before the place `after`, as one of this graph.
fn lost_place(
    alloc: Global,
    live: &LiveMap,
    after: usize,
    bound: u32,
    op: &MachOp,
    place: &Place,
) -> Result<Place, AllocError>
    ensures { IfOk result (IsLostPlace live.now.before.rows.items after bound op.now place.now) }
{
    let next = copy_of(alloc, place.next.as_slice())?;
    let reads = made_at(alloc, live, after, bound, op, place.writes.as_slice())?;
    let writes = joined(alloc, place.reads.as_slice(), place.writes.as_slice())?;
    Ok(Place {
        next: List::from_vec(next),
        aside: List::new(alloc),
        reads: List::from_vec(reads),
        writes: List::from_vec(writes),
    })
}

/// All places of the graph.
fn lost_places(
    alloc: Global,
    mach: &Mach,
    live: &LiveMap,
    flow: &Flow,
) -> Result<Vec<Place>, AllocError>
    requires { IsFlowOf mach.now flow.now }
    ensures { IfOk result (λ nodes.
        AreLostNodes mach.now live.now.before.rows.items flow.now.bound mach.now.code nodes.items) }
{
    let code = mach.code.as_slice();
    let mut nodes = Backward::with_capacity(alloc, flow.places.len())?;
    nodes.push(bare_place(alloc))?;
    let mut left = code.len();
    while left > 0 {
        let after = left;
        left -= 1;
        let op = &code[left].op;
        let node = lost_place(alloc, live, after, flow.bound, op, &flow.places[left])?;
        nodes.push(node)?;
    }
    Ok(nodes.into_vec())
}

/// The registers that are lost before each place: those of which some walk leads there from where they
/// have lived over a call, with no read and no write of them between.
/// The only error is want of memory.
pub fn lost(alloc: Global, mach: &Mach, live: &LiveMap, flow: &Flow) -> Result<Rows, AllocError>
    requires flow { IsFlowOf mach.now flow.now }
    requires formed { IsFlowFormed flow.now }
    requires live { IsLiveMap mach.now live.now }
    ensures { IfOk result (λ rows. AreLost mach.now rows.rows.items) }
{
    let nodes = lost_places(alloc, mach, live, flow)?;
    let flow = Flow {
        places: List::from_vec(nodes),
        bound: flow.bound,
    };
    let rows = reaching(alloc, &flow)?;
    Ok(rows)
}
