//! The graphs over which is solved what is stale and what is fresh.
ghost use Rattle.std.specs.Prelude.{◌≡◌, ◌<◌, suc, length, IfOk};
ghost use Rattle.bs_words.specs.Contents.{contents};
ghost use Rattle.mach_laws.specs.Graph.{IsFlowOf};
ghost use Rattle.sink.specs.Graphs.{destroys_colours, AreLiving, AreOver, IsSinkEntry, IsStalePlace, AreStaleNodes, AreTurned, IsTurned};

use bs_words::List;
use dataflow::{Flow, Place, bare_place, one_place};
use liveness::{Backward, numbers_of};
use mach_ir::{LiveMap, Mach, MachOp};
use std::alloc::{AllocError, Global};

#[tactic(auto, using(crate::proofs::Held::held_op, crate::proofs::Held::held_mark))]
/// Whether a register may live over it and is to be in a slot then: a call that returns, or the entry
/// of a handler.
pub fn is_held(op: &MachOp) -> bool
    ensures { result ≡ destroys_colours op.now }
{
    match op {
        MachOp::Op(operation) => op.destroys_everything() && operation.goes_on(),
        MachOp::Mark(_) => op.destroys_everything(),
    }
}

/// The numbers that are live at the place, these excepted.
fn living(
    alloc: Global,
    live: &LiveMap,
    place: usize,
    except: &[u32],
) -> Result<Vec<u32>, AllocError>
    requires { place < length live.now.before.rows.items }
    ensures { IfOk result (λ found.
        AreLiving live.now.before.rows.items place except.now found.items) }
{
    let row = live.before.at(place);
    let bound = row.size();
    let mut found = Vec::new(alloc);
    let mut from = 0;
    while from < bound {
        match row.next(from) {
            None => from = bound,
            Some(number) => {
                if !except.contains(&number) {
                    found.push(number)?;
                }
                from = number + 1;
            }
        }
    }
    Ok(found)
}

/// The numbers that live over the instruction before the place `after`, if it is held.
fn living_over(
    alloc: Global,
    live: &LiveMap,
    after: usize,
    op: &MachOp,
    written: &[u32],
) -> Result<Vec<u32>, AllocError>
    requires { after < length live.now.before.rows.items }
    ensures { IfOk result (λ found.
        AreOver live.now.before.rows.items after op.now written.now found.items) }
{
    if is_held(op) {
        let found = living(alloc, live, after, written)?;
        Ok(found)
    } else {
        Ok(Vec::new(alloc))
    }
}

/// A place of the graph of liveness, before the place `after`, as one of the graph of what is stale: it
/// generates what lives over it, and kills what it writes.
fn stale_place(
    alloc: Global,
    live: &LiveMap,
    after: usize,
    op: &MachOp,
    place: Place,
) -> Result<Place, AllocError>
    requires { after < length live.now.before.rows.items }
    ensures { IfOk result (IsStalePlace live.now.before.rows.items after op.now place) }
{
    let Place {
        next,
        aside,
        reads: _,
        writes,
    } = place;
    let over = living_over(alloc, live, after, op, writes.as_slice())?;
    Ok(Place {
        next,
        aside,
        reads: List::from_vec(over),
        writes,
    })
}

/// The place after the last instruction stands for the entry: what the entry leaves unwritten comes from it
/// to the first place. Nothing else passes it.
fn entry_place(alloc: Global, mach: &Mach, live: &LiveMap) -> Result<Place, AllocError>
    requires { 0 < length live.now.before.rows.items }
    ensures { IfOk result (IsSinkEntry mach.now live.now.before.rows.items) }
{
    let first = one_place(alloc, 0)?;
    let params = numbers_of(alloc, mach.params.as_slice())?;
    let unwritten = living(alloc, live, 0, &params)?;
    let all = living(alloc, live, 0, &[])?;
    Ok(Place {
        next: List::from_vec(first),
        aside: List::new(alloc),
        reads: List::from_vec(unwritten),
        writes: List::from_vec(all),
    })
}

/// The places of the graph of what is stale, made of those of the graph of liveness.
fn stale_places(
    alloc: Global,
    mach: &Mach,
    live: &LiveMap,
    flow: Flow,
) -> Result<Vec<Place>, AllocError>
    requires flow { IsFlowOf mach.now flow }
    requires live { length live.now.before.rows.items ≡ suc (length mach.now.code) }
    ensures { IfOk result (λ nodes.
        AreStaleNodes mach.now live.now.before.rows.items mach.now.code nodes.items) }
{
    let code = mach.code.as_slice();
    let Flow { places, bound: _ } = flow;
    let mut left = places.into_vec();
    let mut nodes = Backward::with_capacity(alloc, left.len())?;
    nodes.push(entry_place(alloc, mach, live)?)?;
    let _last = left.pop();
    while let Some(place) = left.pop() {
        let at = left.len();
        let node = stale_place(alloc, live, at + 1, &code[at].op, place)?;
        nodes.push(node)?;
    }
    Ok(nodes.into_vec())
}

/// The graph of what is stale. The only error is want of memory.
pub fn stale_flow(
    alloc: Global,
    mach: &Mach,
    live: &LiveMap,
    flow: Flow,
) -> Result<Flow, AllocError>
    requires flow { IsFlowOf mach.now flow }
    requires live { length live.now.before.rows.items ≡ suc (length mach.now.code) }
    ensures bound { IfOk result (λ made. made.bound ≡ flow.bound) }
    ensures nodes { IfOk result (λ made.
        AreStaleNodes mach.now live.now.before.rows.items mach.now.code (contents made.places)) }
{
    let bound = flow.bound;
    let nodes = stale_places(alloc, mach, live, flow)?;
    Ok(Flow {
        places: List::from_vec(nodes),
        bound,
    })
}

fn turned(place: Place) -> Place
    ensures { IsTurned place result }
{
    let Place {
        next,
        aside,
        reads,
        writes,
    } = place;
    Place {
        next,
        aside,
        reads: writes,
        writes: reads,
    }
}

/// The places with what they generate and what they kill exchanged, and a bare one for the last.
fn turned_places(alloc: Global, places: Vec<Place>) -> Result<Vec<Place>, AllocError>
    requires { 0 < length places.items }
    ensures { IfOk result (λ made. AreTurned places.items made.items) }
{
    let mut left = places;
    let mut made = Backward::with_capacity(alloc, left.len())?;
    made.push(bare_place(alloc))?;
    let _last = left.pop();
    while let Some(place) = left.pop() {
        made.push(turned(place))?;
    }
    Ok(made.into_vec())
}

/// The graph of what is fresh: a place generates what it writes, and kills what lives over it.
/// The only error is want of memory.
pub fn fresh_flow(alloc: Global, stale: Flow) -> Result<Flow, AllocError>
    requires { 0 < length (contents stale.places) }
    ensures bound { IfOk result (λ made. made.bound ≡ stale.bound) }
    ensures places { IfOk result (λ made.
        AreTurned (contents stale.places) (contents made.places)) }
{
    let Flow { places, bound } = stale;
    let made = turned_places(alloc, places.into_vec())?;
    Ok(Flow {
        places: List::from_vec(made),
        bound,
    })
}
