//! Which registers are used at each place of a function.
ghost use Rattle.std.specs.Prelude.{IfOk};
ghost use Rattle.dataflow.specs.Flow.{IsFlowFormed};
ghost use Rattle.mach_ir.specs.Sizes.{IsCountable};
ghost use Rattle.cse_deadcode.specs.Flows.{AreUsed};
ghost use Rattle.cse_deadcode.specs.Uses.{goes_at, AreUses};

use crate::visits::sweep;
use bs_bits::Bits;
use dataflow::{Flow, Rows, empty_rows};
use liveness::flow_of;
use mach_ir::{Instr, Mach};
use std::alloc::{AllocError, Global};

/// The numbers that are used before each place of the graph, where instructions that may go only
/// compute.
fn used_in_flow(alloc: Global, flow: &Flow, code: &[Instr]) -> Result<Rows, AllocError>
    requires { IsFlowFormed flow.now }
    ensures { IfOk result (λ rows. AreUsed flow.now (goes_at code.now) rows.rows.items) }
{
    let mut rows = empty_rows(alloc, flow.places.len(), flow.bound)?;
    let mut set = Bits::new(alloc, flow.bound)?;
    let mut grew = true;
    while grew {
        grew = sweep(flow, code, &mut rows, &mut set);
    }
    Ok(Rows { rows })
}

/// The registers that are used from each instruction on, and after the last.
///
/// The time is that of a sweep over the function for each depth of its loops and two more; the memory
/// is a bit for each register and place. The only error is want of memory.
pub fn used(alloc: Global, mach: &Mach) -> Result<Rows, AllocError>
    requires countable { IsCountable mach.now }
    ensures { IfOk result (λ rows. AreUses mach.now rows.rows.items) }
{
    let flow = flow_of(alloc, mach)?;
    let rows = used_in_flow(alloc, &flow, mach.code.as_slice())?;
    Ok(rows)
}
