//! The graph.
ghost use Rattle.std.specs.Prelude.{IfOk};
ghost use Rattle.dataflow.specs.Flow as flows;
ghost use Rattle.mach_ir.specs.Formed.{WellFormed};
ghost use Rattle.mach_ir.specs.Graph.{IsLiveMap, IsGraph};
ghost use Rattle.mach_ir.specs.Sizes.{IsCountable};
ghost use Rattle.mach_laws.specs.Graph.{IsFlowOf};

use crate::tables::Tables;
use dataflow::Flow;
use mach_ir::{Graph, LiveMap, Mach, Seq};
use std::alloc::{AllocError, Global};

/// The interference graph of a function, by what is live in it and its flow graph: a node for each of its
/// registers, with the registers that it is joined with, its moves and its uses.
///
/// Two registers are joined where one is written while the other is live after the write, a move's source
/// and target excepted. The entry writes the parameters, and what an operation or the entry of a handler
/// destroys is written too.
///
/// The time is that of what each instruction writes times what is live after it; the memory is a bit for
/// each pair of registers, and the graph. The only error is want of memory.
pub fn graph(alloc: Global, mach: &Mach, live: &LiveMap, flow: &Flow) -> Result<Graph, AllocError>
    requires formed { WellFormed mach.now }
    requires countable { IsCountable mach.now }
    requires live { IsLiveMap mach.now live.now }
    requires flow { IsFlowOf mach.now flow.now }
    requires edges { flows.IsFlowFormed flow.now }
    ensures { IfOk result (IsGraph mach.now) }
{
    let tables = Tables::of_function(alloc, mach, live, flow)?;
    let nodes = tables.nodes(alloc)?;
    Ok(Graph {
        nodes: Seq::from_vec(nodes),
    })
}
