//! Which writes come to each place.
ghost use Rattle.std.specs.Prelude.{◌≡◌, ◌<◌, ◌^◌, suc, length, IfOk};
ghost use Rattle.bs_words.specs.Contents.{contents};
ghost use Rattle.mach_ir.specs.Formed.{WellFormed};
ghost use Rattle.mach_ir.specs.Placed.{WellPlaced};
ghost use Rattle.mach_ir.specs.Sizes.{number_limit};
ghost use Rattle.liveness.specs.Labels.{AreLabelsOf};
ghost use Rattle.liveness.specs.Nodes.{AreLivenessNodes};
ghost use Rattle.split.specs.Writes.{AreWrites};
ghost use Rattle.split_rules.specs.Order.{writes_of};
ghost use Rattle.split.specs.Reach.{made_at, ended_by, write_uses, IsNodeAt, IsReachingEntry, AreReaching};

use crate::writes::Writes;
use bs_words::List;
use dataflow::{Flow, Place, Rows, bare_place, reaching};
use liveness::{Backward, Edges, InstructionLabels, edges_of, pass_tries};
use mach_ir::{Instr, Mach, Reg};
use std::alloc::{AllocError, Global};

/// The indexes of the writes of these registers before so many instructions.
fn made_at(alloc: Global, writes: &Writes, left: u32, regs: &[Reg]) -> Result<List<u32>, AllocError>
    ensures { IfOk result (λ found. contents found ≡ made_at writes.now left regs.now) }
{
    let mut found = Vec::new(alloc);
    for reg in regs {
        if let Some(index) = writes.find_at(left, reg.number) {
            found.push(index)?;
        }
    }
    Ok(List::from_vec(found))
}

/// The indexes of all writes of these registers.
fn ended_by(alloc: Global, writes: &Writes, regs: &[Reg]) -> Result<List<u32>, AllocError>
    ensures { IfOk result (λ found. contents found ≡ ended_by writes.now regs.now) }
{
    let mut found = Vec::new(alloc);
    for reg in regs {
        found.extend_from_slice(writes.members(reg.number))?;
    }
    Ok(List::from_vec(found))
}

/// The node of the instruction that so many others come after, and from which control goes so. It
/// makes its own writes, and ends all others of the same registers.
fn node_of(
    alloc: Global,
    writes: &Writes,
    left: u32,
    instr: &Instr,
    edges: Edges,
) -> Result<Place, AllocError>
    ensures { IfOk result (IsNodeAt writes.now left instr.now edges) }
{
    let Edges { next, aside } = edges;
    let reads = made_at(alloc, writes, left, instr.results.as_slice())?;
    let writes = ended_by(alloc, writes, instr.results.as_slice())?;
    Ok(Place {
        next,
        aside,
        reads,
        writes,
    })
}

/// A node before the first place, where the entry's writes are made.
fn entry_node(alloc: Global, mach: &Mach, writes: &Writes) -> Result<Place, AllocError>
    requires { length mach.now.code < 2 ^ 32 }
    ensures { IfOk result (IsReachingEntry mach.now writes.now) }
{
    let mut next = Vec::new(alloc);
    next.push(0)?;
    let left = mach.code.len() as u32;
    let reads = made_at(alloc, writes, left, mach.params.as_slice())?;
    Ok(Place {
        next: List::from_vec(next),
        aside: List::new(alloc),
        reads,
        writes: List::new(alloc),
    })
}

/// The nodes of all places of the function.
fn nodes_of(
    alloc: Global,
    mach: &Mach,
    labels: &InstructionLabels,
    writes: &Writes,
) -> Result<Vec<Place>, AllocError>
    requires labels { AreLabelsOf mach.now labels.now }
    requires fits { suc (length mach.now.code) < 2 ^ 32 }
    ensures { IfOk result (λ nodes.
        AreLivenessNodes mach.now (write_uses writes.now) mach.now.code nodes.items) }
{
    let code = mach.code.as_slice();
    let end = code.len();
    // One for each place, one after the last, and the entry's, which comes to them later.
    let mut nodes = Backward::with_capacity(alloc, end + 2)?;
    nodes.push(bare_place(alloc))?;
    let mut tries = Backward::new(alloc);
    let mut left = end;
    while left > 0 {
        let after = (end - left) as u32;
        left -= 1;
        let instr = &code[left];
        pass_tries(&mut tries, &instr.op)?;
        let edges = edges_of(alloc, mach, labels, left as u32, instr, &tries)?;
        let node = node_of(alloc, writes, after, instr, edges)?;
        nodes.push(node)?;
    }
    Ok(nodes.into_vec())
}

/// Which writes of open registers come to each place of a function, by their indexes.
/// The only error is want of memory.
pub fn reach(alloc: Global, mach: &Mach, free: u32, writes: &Writes) -> Result<Rows, AllocError>
    requires fits { suc (length mach.now.code) < 2 ^ 32 }
    requires few { length (writes_of mach.now) < number_limit }
    requires writes { AreWrites mach.now free writes.now }
    ensures { IfOk result (λ rows. WellFormed mach.now → WellPlaced mach.now →
        AreReaching mach.now writes.now rows.rows.items) }
{
    let bound = writes.all.len() as u32;
    let labels = InstructionLabels::of_function(alloc, mach)?;
    let mut nodes = nodes_of(alloc, mach, &labels, writes)?;
    nodes.push(entry_node(alloc, mach, writes)?)?;
    let flow = Flow {
        places: List::from_vec(nodes),
        bound,
    };
    let rows = reaching(alloc, &flow)?;
    Ok(rows)
}
