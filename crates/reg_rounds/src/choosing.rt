//! Places for the registers of a function, by either choice.
ghost use Rattle.std.specs.Prelude.{IfOk};
ghost use Rattle.dataflow.specs.Flow as flows;
ghost use Rattle.mach_ir.specs.Formed.{WellFormed};
ghost use Rattle.mach_ir.specs.Graph.{InGraph, JoinedIn, IsGraph, IsLiveMap, coloured_location};
ghost use Rattle.mach_ir.specs.Placed.{WellPlaced, IsProperColouring};
ghost use Rattle.mach_ir.specs.Sizes.{IsCountable};
ghost use Rattle.mach_laws.specs.Graph.{IsFlowOf};
ghost use Rattle.reg_rounds_rules.specs.Rounds.{Chooses, IsLinearScan};

use choices::Alloc;
use colouring::colour;
use dataflow::Flow;
use linscan::{intervals, scan};
use mach_ir::{Colours, Graph, LiveMap, Mach};
use std::alloc::{AllocError, Global};

/// The places that linear scan takes, by the intervals of the function. The only error is want of memory.
fn scanned_places(
    alloc: Global,
    mach: &Mach,
    live: &LiveMap,
    flow: &Flow,
    graph: &Graph,
) -> Result<Colours, AllocError>
    requires formed { WellFormed mach.now }
    requires placed { WellPlaced mach.now }
    requires countable { IsCountable mach.now }
    requires live { IsLiveMap mach.now live.now }
    requires flow { IsFlowOf mach.now flow.now }
    requires edges { flows.IsFlowFormed flow.now }
    requires graph { IsGraph mach.now graph.now }
    ensures safe { IfOk result (λ colours. IsProperColouring (InGraph graph.now)
        (JoinedIn graph.now) (coloured_location colours)) }
    ensures taken { IfOk result (IsLinearScan mach.now graph.now) }
{
    let intervals = intervals(alloc, mach, live, flow)?;
    scan(alloc, graph, &intervals)
}

/// The places that the choice takes for the graph of a function. Registers numbered `fresh` or above were
/// made by earlier rounds. The only error is want of memory.
pub fn chosen_places(
    alloc: Global,
    mach: &Mach,
    live: &LiveMap,
    flow: &Flow,
    graph: &Graph,
    by: Alloc,
    fresh: u32,
) -> Result<Colours, AllocError>
    requires formed { WellFormed mach.now }
    requires placed { WellPlaced mach.now }
    requires countable { IsCountable mach.now }
    requires live { IsLiveMap mach.now live.now }
    requires flow { IsFlowOf mach.now flow.now }
    requires edges { flows.IsFlowFormed flow.now }
    requires graph { IsGraph mach.now graph.now }
    ensures safe { IfOk result (λ colours. IsProperColouring (InGraph graph.now)
        (JoinedIn graph.now) (coloured_location colours)) }
    ensures chosen { IfOk result (Chooses by fresh mach.now graph.now) }
{
    match by {
        Alloc::Colour => colour(alloc, graph, fresh),
        Alloc::Linear => scanned_places(alloc, mach, live, flow, graph),
    }
}
