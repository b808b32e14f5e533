//! Which registers are joined: what is written with what is live after it.
ghost use Rattle.std.specs.Prelude.{◌≡◌, ◌↔◌, ◌<◌, ℕ, true, None, All, length, IfOk};
ghost use Rattle.bs_bits.specs.Set.{has};
ghost use Rattle.bs_words.specs.Contents.{contents};
ghost use Rattle.dataflow.specs.Flow.{IsFlowFormed};
ghost use Rattle.mach_ir.specs.Graph.{IsLiveMap};
ghost use Rattle.mach_ir.specs.Walks.{IsRegister, Joined};
ghost use Rattle.mach_ir.specs.declared.reg.Reg.{Reg};
ghost use Rattle.mach_laws.specs.Graph.{IsFlowOf};
ghost use Rattle.interfere.specs.Pairs.{Has, AddsPairs, ForOne, Meeting, MeetsSet, MeetsPlaces, AreBelow};

use crate::matrix::Matrix;
use crate::members::members_of;
use crate::moves::{Move, is_from_to, move_of};
use bs_bits::Bits;
use dataflow::{Flow, Place};
use mach_ir::{LiveMap, Mach, Reg};
use std::alloc::{AllocError, Global};

/// Joins a register that is written with one that is live then, but with the source of the move.
fn join_one(joined: &mut Matrix, moved: Option<Move>, number: u32, other: u32)
    requires number { number < length joined.old }
    requires other { other < length joined.old }
    ensures { AddsPairs joined.old joined.new (Meeting moved number other) }
{
    if !is_from_to(moved, other, number) {
        joined.join(number, other);
    }
}

/// Joins a register that is written with those that are live then.
fn join_others(joined: &mut Matrix, moved: Option<Move>, number: u32, others: &[u32])
    requires number { number < length joined.old }
    requires others { All (λ k. k < length joined.old) others.now }
    ensures { AddsPairs joined.old joined.new (ForOne (Meeting moved number) others.now) }
{
    for other in others {
        join_one(joined, moved, number, *other);
    }
}

/// Joins registers that are written with those of a set, which are live then.
fn join_set(
    alloc: Global,
    joined: &mut Matrix,
    moved: Option<Move>,
    numbers: &[u32],
    set: &Bits,
) -> Result<(), AllocError>
    requires numbers { All (λ n. n < length joined.old) numbers.now }
    requires set { (k : ℕ) → has set.now k ≡ true → k < length joined.old }
    ensures { IfOk result (λ _.
        AddsPairs joined.old joined.new (ForOne (MeetsSet moved set.now) numbers.now)) }
{
    if numbers.is_empty() {
        return Ok(());
    }
    let others = members_of(alloc, set)?;
    for number in numbers {
        join_others(joined, moved, *number, others.as_slice());
    }
    Ok(())
}

/// Joins the registers that the instruction of the node writes with those that are live where it goes
/// on. Where a raise leads it has written nothing.
fn join_writes(
    alloc: Global,
    joined: &mut Matrix,
    moved: Option<Move>,
    live: &LiveMap,
    node: &Place,
) -> Result<(), AllocError>
    requires numbers { All (λ n. n < length joined.old) (contents node.now.writes) }
    requires live { AreBelow (length joined.old) live.now.before.rows.items }
    requires places { All (λ q. q < length live.now.before.rows.items) (contents node.now.next) }
    ensures { IfOk result (λ _. AddsPairs joined.old joined.new
        (MeetsPlaces moved live.now.before.rows.items (contents node.now.writes)
        (contents node.now.next))) }
{
    let numbers = node.writes.as_slice();
    for place in node.next.as_slice() {
        let set = live.before.at(*place as usize);
        join_set(alloc, joined, moved, numbers, set)?;
    }
    Ok(())
}

/// Joins the parameters, which the entry writes, with a set that is live there.
fn join_params(
    alloc: Global,
    joined: &mut Matrix,
    params: &[Reg],
    set: &Bits,
) -> Result<(), AllocError>
    requires params { All (λ (r : Reg). r.number < length joined.old) params.now }
    requires set { (k : ℕ) → has set.now k ≡ true → k < length joined.old }
    ensures { IfOk result (λ _. AddsPairs joined.old joined.new
        (ForOne (λ (r : Reg). MeetsSet None set.now r.number) params.now)) }
{
    let others = members_of(alloc, set)?;
    for reg in params {
        join_others(joined, None, reg.number, others.as_slice());
    }
    Ok(())
}

/// The pairs of registers of a function that are joined, by its flow graph and what is live in it; their
/// numbers are below `size`. The only error is want of memory.
pub fn joined_in(
    alloc: Global,
    mach: &Mach,
    flow: &Flow,
    live: &LiveMap,
    size: u32,
) -> Result<Matrix, AllocError>
    requires flow { IsFlowOf mach.now flow.now }
    requires formed { IsFlowFormed flow.now }
    requires live { IsLiveMap mach.now live.now }
    requires numbers { (r : Reg) → IsRegister mach.now r → r.number < size }
    ensures len { IfOk result (λ joined. length joined ≡ size) }
    ensures pairs { IfOk result (λ joined. (n k : ℕ) → Has joined n k ↔ Joined mach.now n k) }
{
    let mut joined = Matrix::new(alloc, size)?;
    let params = mach.params.as_slice();
    join_params(alloc, &mut joined, params, live.before.at(0))?;
    for (place, instr) in mach.code.as_slice().iter().enumerate() {
        let node = &flow.places[place];
        join_writes(alloc, &mut joined, move_of(instr), live, node)?;
    }
    Ok(joined)
}
