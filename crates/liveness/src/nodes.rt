//! The nodes of the flow graph.
ghost use Rattle.std.specs.Prelude.{IfOk};
ghost use Rattle.liveness.specs.Nodes.{IsNodeWith, register_uses};

use crate::edges::Edges;
use crate::written::{numbers_of, numbers_written};
use bs_words::List;
use dataflow::Place;
use mach_ir::{Instr, Mach};
use std::alloc::{AllocError, Global};

/// The node of the instruction from which control goes so. The only error is want of memory.
pub fn node_of(alloc: Global, mach: &Mach, instr: &Instr, edges: Edges) -> Result<Place, AllocError>
    ensures { IfOk result (IsNodeWith mach.now (register_uses mach.now) instr.now edges) }
{
    let Edges { next, aside } = edges;
    let reads = numbers_of(alloc, instr.args.as_slice())?;
    let writes = numbers_written(alloc, mach, instr)?;
    Ok(Place {
        next,
        aside,
        reads: List::from_vec(reads),
        writes,
    })
}
