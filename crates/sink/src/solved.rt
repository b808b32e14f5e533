//! What is fresh and what is stale before each place.
ghost use Rattle.std.specs.Prelude.{IfOk};
ghost use Rattle.dataflow.specs.Flow.{IsFlowFormed};
ghost use Rattle.mach_ir.specs.Graph.{IsLiveMap};
ghost use Rattle.mach_laws.specs.Graph.{IsFlowOf};
ghost use Rattle.sink.specs.Tables.{IsSolved};

use crate::graphs::{fresh_flow, stale_flow};
use dataflow::{Flow, Rows, reaching};
use mach_ir::{LiveMap, Mach};
use std::alloc::{AllocError, Global};

/// What is fresh and what is stale before each place, and the graph of what is fresh.
#[derive(Drop)]
pub struct Solved {
    /// The graph of what is fresh.
    pub graph: Flow,
    /// The numbers that are fresh before each place.
    pub fresh: Rows,
    /// The numbers that are stale before each place.
    pub stale: Rows,
}

/// Solves both over the flow graph of liveness, which is used up: its lists are those of the new graphs.
/// The only error is want of memory.
pub fn solve(alloc: Global, mach: &Mach, live: &LiveMap, flow: Flow) -> Result<Solved, AllocError>
    requires flow { IsFlowOf mach.now flow }
    requires formed { IsFlowFormed flow }
    requires live { IsLiveMap mach.now live.now }
    ensures { IfOk result (IsSolved mach.now live.now flow.bound) }
{
    let graph = stale_flow(alloc, mach, live, flow)?;
    let stale = reaching(alloc, &graph)?;
    let graph = fresh_flow(alloc, graph)?;
    let fresh = reaching(alloc, &graph)?;
    Ok(Solved {
        graph,
        fresh,
        stale,
    })
}
