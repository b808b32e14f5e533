//! What is live.
ghost use Rattle.std.specs.Prelude.{IfOk};
ghost use Rattle.dataflow.specs.Flow.{IsFlowFormed};
ghost use Rattle.mach_ir.specs.Graph.{IsLiveMap};
ghost use Rattle.mach_ir.specs.Sizes.{IsCountable};
ghost use Rattle.mach_laws.specs.Graph.{IsFlowOf};

use crate::flow::flow_of;
use dataflow::Flow;
use mach_ir::{LiveMap, Mach};
use std::alloc::{AllocError, Global};

/// The flow graph of a function, with what is live in it.
#[derive(Drop)]
pub struct LiveFlow {
    /// The flow graph.
    pub flow: Flow,

    /// What is live before each instruction, and after the last.
    pub live: LiveMap,
}

/// The flow graph of the function, and the registers that are live before each instruction, and after
/// the last: exactly those that some walk from there reads before it writes them. For what asks both,
/// so that the graph is made once.
///
/// The time is that of a sweep over the function for each depth of its loops and two more; the memory
/// is a bit for each register and place. The only error is want of memory.
pub fn live_flow(alloc: Global, mach: &Mach) -> Result<LiveFlow, AllocError>
    requires countable { IsCountable mach.now }
    ensures flow { IfOk result (λ found. IsFlowOf mach.now found.flow) }
    ensures formed { IfOk result (λ found. IsFlowFormed found.flow) }
    ensures live { IfOk result (λ found. IsLiveMap mach.now found.live) }
{
    let flow = flow_of(alloc, mach)?;
    let before = dataflow::live(alloc, &flow)?;
    let live = LiveMap { before };
    Ok(LiveFlow { flow, live })
}

/// What is live alone, by `live_flow`. The only error is want of memory.
pub fn live(alloc: Global, mach: &Mach) -> Result<LiveMap, AllocError>
    requires countable { IsCountable mach.now }
    ensures { IfOk result (IsLiveMap mach.now) }
{
    let found = live_flow(alloc, mach)?;
    Ok(found.live)
}
