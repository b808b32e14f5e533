//! The flow graph of a function.
ghost use Rattle.std.specs.Prelude.{◌<◌, ◌^◌, suc, length, IfOk};
ghost use Rattle.dataflow.specs.Flow.{IsFlowFormed};
ghost use Rattle.mach_ir.specs.Sizes.{IsCountable};
ghost use Rattle.mach_laws.specs.Graph.{IsFlowOf};
ghost use Rattle.liveness.specs.Labels.{AreLabelsOf};
ghost use Rattle.liveness.specs.Nodes.{AreLivenessNodes, register_uses};

use crate::backward::Backward;
use crate::control::pass_tries;
use crate::edges::edges_of;
use crate::labels::InstructionLabels;
use crate::nodes::node_of;
use crate::numbers::first_free;
use bs_words::List;
use dataflow::{Flow, Place, bare_place};
use mach_ir::Mach;
use std::alloc::{AllocError, Global};

/// The nodes of all places of the function.
fn nodes_of(
    alloc: Global,
    mach: &Mach,
    labels: &InstructionLabels,
) -> Result<Vec<Place>, AllocError>
    requires labels { AreLabelsOf mach.now labels.now }
    requires fits { suc (length mach.now.code) < 2 ^ 32 }
    ensures { IfOk result (λ nodes.
        AreLivenessNodes mach.now (register_uses mach.now) mach.now.code nodes.items) }
{
    let code = mach.code.as_slice();
    let mut nodes = Backward::with_capacity(alloc, code.len() + 1)?;
    nodes.push(bare_place(alloc))?;
    let mut tries = Backward::new(alloc);
    let mut left = code.len();
    while left > 0 {
        left -= 1;
        let instr = &code[left];
        pass_tries(&mut tries, &instr.op)?;
        let edges = edges_of(alloc, mach, labels, left as u32, instr, &tries)?;
        let node = node_of(alloc, mach, instr, edges)?;
        nodes.push(node)?;
    }
    Ok(nodes.into_vec())
}

/// The flow graph of the function. Its places are those of the text, and one after the last.
/// The only error is want of memory.
pub fn flow_of(alloc: Global, mach: &Mach) -> Result<Flow, AllocError>
    requires countable { IsCountable mach.now }
    ensures flow { IfOk result (IsFlowOf mach.now) }
    ensures formed { IfOk result IsFlowFormed }
{
    let bound = first_free(mach);
    let labels = InstructionLabels::of_function(alloc, mach)?;
    let nodes = nodes_of(alloc, mach, &labels)?;
    Ok(Flow {
        places: List::from_vec(nodes),
        bound,
    })
}
