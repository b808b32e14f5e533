//! One sweep over the places: what is used before each, from what is known to be used after it.
ghost use Rattle.std.specs.Prelude.{◌≡◌, ℕ, ◌<◌, ◌||◌, ◌&&◌, ◌==◌, not, length};
ghost use Rattle.std.specs.List.{All, list_any};
ghost use Rattle.bs_bits.specs.Set.{has};
ghost use Rattle.bs_words.specs.Contents.{contents};
ghost use Rattle.dataflow.specs.Rows.{set_in_row, HasSizes};
ghost use Rattle.dataflow.specs.Flow.{IsPlace, IsFlowFormed};
ghost use Rattle.cse_deadcode.specs.Flows.{is_wanted, is_used_before_place, VisitedForUse, SweptForUse};
ghost use Rattle.cse_deadcode.specs.Uses.{goes_at};
ghost use Rattle.deadcode_rules.specs.Dropped.{only_computes, may_go};

use bs_bits::Bits;
use dataflow::{Flow, Place, add_rows, put_in, take_out};
use mach_ir::{CopyKind, Instr, MachOp, Op, Pure};

fn only_computes(pure: &Pure) -> bool
    ensures { result ≡ only_computes pure.now }
{
    match pure {
        Pure::Copy(CopyKind::Move) => true,
        Pure::Copy(CopyKind::Spill) => false,
        Pure::Copy(CopyKind::Reload) => false,
        Pure::Constant(_) => true,
        Pure::Symbol(_) => true,
        Pure::Operator(_, _) => true,
    }
}

/// Whether the operation may go where nothing uses its result.
pub(crate) fn may_go(op: &MachOp) -> bool
    ensures { result ≡ may_go op.now }
{
    match op {
        MachOp::Op(Op::Pure(pure)) => only_computes(pure),
        MachOp::Op(Op::Access(_)) => false,
        MachOp::Op(Op::Calling(_)) => false,
        MachOp::Op(Op::Leaving(_)) => false,
        MachOp::Mark(_) => false,
    }
}

/// Whether the instruction at the place may go; after the last there is none.
fn goes_at(code: &[Instr], place: usize) -> bool
    ensures { result ≡ goes_at code.now place }
{
    match code.get(place) {
        None => false,
        Some(instr) => may_go(&instr.op),
    }
}

/// Whether the number is in the set of the place.
fn has_at(rows: &[Bits], place: u32, number: u32) -> bool
    ensures { result ≡ has (set_in_row rows.now place) number }
{
    match rows.get(place as usize) {
        None => false,
        Some(set) => number < set.size() && set.contains(number),
    }
}

/// Whether the number is in the set of one of the places.
fn is_in_some(rows: &[Bits], places: &[u32], number: u32) -> bool
    ensures { result ≡ list_any (λ q. has (set_in_row rows.now q) number) places.now }
{
    places.iter().any(|q| has_at(rows, *q, number))
}

/// Whether a number that the place writes is in the set of a next one.
fn is_wanted(rows: &[Bits], next: &[u32], writes: &[u32]) -> bool
    ensures { result ≡ is_wanted next.now writes.now rows.now }
{
    writes.iter().any(|k| is_in_some(rows, next, *k))
}

/// Whether the place uses what it reads.
fn is_user(place: &Place, computes: bool, rows: &[Bits]) -> bool
    ensures { result
        ≡ (not computes
        || is_wanted (contents place.now.next) (contents place.now.writes) rows.now) }
{
    !computes || is_wanted(rows, place.next.as_slice(), place.writes.as_slice())
}

/// Puts the numbers in, if it is asked to.
fn put_in_if(set: &mut Bits, numbers: &[u32], told: bool)
    requires { All (λ k. k < length set.old) numbers.now }
    ensures size { length set.new ≡ length set.old }
    ensures members { (r : ℕ) →
        has set.new r ≡ (has set.old r || (told && list_any (λ k. k == r) numbers.now)) }
{
    if told {
        put_in(set, numbers);
    }
}

/// Makes `set` what is used before the place, as far as `rows` say what is used before others.
fn flow_back(place: &Place, computes: bool, rows: &[Bits], set: &mut Bits)
    requires place { IsPlace (length rows.now) (length set.old) place.now }
    requires sizes { HasSizes (length set.old) rows.now }
    ensures size { length set.new ≡ length set.old }
    ensures members { (r : ℕ) → has set.new r ≡ is_used_before_place computes place.now rows.now r }
{
    let is_user = is_user(place, computes, rows);
    set.clear();
    add_rows(set, rows, place.next.as_slice());
    take_out(set, place.writes.as_slice());
    add_rows(set, rows, place.aside.as_slice());
    put_in_if(set, place.reads.as_slice(), is_user);
}

/// Adds to the set of place `p` what is used before it, and answers whether it grew.
fn visit(flow: &Flow, code: &[Instr], p: usize, rows: &mut Vec<Bits>, set: &mut Bits) -> bool
    requires flow { IsFlowFormed flow.now }
    requires len { length rows.old.items ≡ length (contents flow.now.places) }
    requires within { p < length rows.old.items }
    requires size { length set.old ≡ flow.now.bound }
    requires sizes { HasSizes flow.now.bound rows.old.items }
    ensures size { length set.new ≡ flow.now.bound }
    ensures visited { VisitedForUse flow.now (goes_at code.now) rows.old.items rows.new.items p result }
{
    let computes = goes_at(code, p);
    flow_back(&flow.places[p], computes, rows, set);
    rows[p].union_with(set)
}

/// Visits each place, from the last to the first, and answers whether a set grew.
pub(crate) fn sweep(flow: &Flow, code: &[Instr], rows: &mut Vec<Bits>, set: &mut Bits) -> bool
    requires flow { IsFlowFormed flow.now }
    requires len { length rows.old.items ≡ length (contents flow.now.places) }
    requires size { length set.old ≡ flow.now.bound }
    requires sizes { HasSizes flow.now.bound rows.old.items }
    ensures size { length set.new ≡ flow.now.bound }
    ensures swept { SweptForUse flow.now (goes_at code.now) rows.old.items rows.new.items result }
{
    let mut grew = false;
    let mut p = rows.len();
    while p > 0 {
        p -= 1;
        let grew_here = visit(flow, code, p, rows, set);
        grew = grew || grew_here;
    }
    grew
}
