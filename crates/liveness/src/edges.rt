//! Where control goes from each instruction, as the text is read from its end.
ghost use Rattle.std.specs.Prelude.{◌<◌, ◌^◌, suc, IfOk};
ghost use Rattle.liveness.specs.Labels.{AreLabelsOf};
ghost use Rattle.liveness.specs.Nodes.{AreEdgesAt};

use crate::backward::Backward;
use crate::control::{places_after, places_aside};
use crate::labels::InstructionLabels;
use bs_words::List;
use mach_ir::{Instr, Mach};
use std::alloc::{AllocError, Global};

/// Where control goes from a place: the places that come next, and the handler that a raise leads to.
#[derive(Drop)]
pub struct Edges {
    /// The places that come next.
    pub next: List<u32>,
    /// The handler's place that a raise leads to, where one may come.
    pub aside: List<u32>,
}

/// Where control goes from the instruction at the place, with these tries round it.
/// The only error is want of memory.
pub fn edges_of(
    alloc: Global,
    mach: &Mach,
    labels: &InstructionLabels,
    place: u32,
    instr: &Instr,
    tries: &Backward<u32>,
) -> Result<Edges, AllocError>
    requires labels { AreLabelsOf mach.now labels.now }
    requires fits { suc place < 2 ^ 32 }
    ensures { IfOk result (AreEdgesAt mach.now place instr.now tries.now) }
{
    let next = places_after(alloc, labels, &instr.op, place)?;
    let aside = places_aside(alloc, labels, &instr.op, tries)?;
    Ok(Edges {
        next: List::from_vec(next),
        aside: List::from_vec(aside),
    })
}
