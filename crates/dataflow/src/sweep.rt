//! One sweep over the places: what is live before each, from what is known to be live after it.
ghost use Rattle.std.specs.Prelude.{◌≡◌, ℕ, ◌<◌, ◌||◌, ◌&&◌, ◌==◌, not, length};
ghost use Rattle.std.specs.List.{All, list_any};
ghost use Rattle.bs_bits.specs.Set.{has};
ghost use Rattle.bs_words.specs.Contents.{contents};
ghost use Rattle.dataflow.specs.Rows.{set_in_row, HasSizes};
ghost use Rattle.dataflow.specs.Flow.{IsPlace, IsFlowFormed};
ghost use Rattle.dataflow.specs.Sweep.{enters_place, Visited, Swept};

use crate::spread::either;
use crate::{Flow, Place};
use bs_bits::Bits;

/// Adds to the set those of the places.
pub fn add_rows(set: &mut Bits, rows: &[Bits], places: &[u32])
    requires sizes { HasSizes (length set.old) rows.now }
    requires within { All (λ q. q < length rows.now) places.now }
    ensures size { length set.new ≡ length set.old }
    ensures members { (r : ℕ) → has set.new r ≡ (has set.old r || list_any (λ q.
        has (set_in_row rows.now q) r) places.now) }
{
    for q in places {
        let _grew = set.union_with(&rows[*q as usize]);
    }
}

/// Takes the numbers out of the set.
pub fn take_out(set: &mut Bits, numbers: &[u32])
    requires { All (λ k. k < length set.old) numbers.now }
    ensures size { length set.new ≡ length set.old }
    ensures members { (r : ℕ) →
        has set.new r ≡ (has set.old r && not (list_any (λ k. k == r) numbers.now)) }
{
    for k in numbers {
        set.remove(*k);
    }
}

/// Puts the numbers into the set.
pub fn put_in(set: &mut Bits, numbers: &[u32])
    requires { All (λ k. k < length set.old) numbers.now }
    ensures size { length set.new ≡ length set.old }
    ensures members { (r : ℕ) →
        has set.new r ≡ (has set.old r || list_any (λ k. k == r) numbers.now) }
{
    for k in numbers {
        set.insert(*k);
    }
}

/// Makes `set` what is live before the place, as far as `rows` tell what is live before others.
fn flow_back(place: &Place, rows: &[Bits], set: &mut Bits)
    requires place { IsPlace (length rows.now) (length set.old) place.now }
    requires sizes { HasSizes (length set.old) rows.now }
    ensures size { length set.new ≡ length set.old }
    ensures members { (r : ℕ) → has set.new r ≡ enters_place place.now rows.now r }
{
    set.clear();
    add_rows(set, rows, place.next.as_slice());
    take_out(set, place.writes.as_slice());
    add_rows(set, rows, place.aside.as_slice());
    put_in(set, place.reads.as_slice());
}

/// Adds to the set of place `p` what is live before it, and answers whether it grew.
fn visit(flow: &Flow, p: usize, rows: &mut Vec<Bits>, set: &mut Bits) -> bool
    requires flow { IsFlowFormed flow.now }
    requires len { length rows.old.items ≡ length (contents flow.now.places) }
    requires within { p < length rows.old.items }
    requires size { length set.old ≡ flow.now.bound }
    requires sizes { HasSizes flow.now.bound rows.old.items }
    ensures size { length set.new ≡ flow.now.bound }
    ensures visited { Visited flow.now rows.old.items rows.new.items p result }
{
    flow_back(&flow.places[p], rows, set);
    rows[p].union_with(set)
}

/// Visits each place, from the last to the first, and answers whether a set grew.
pub(crate) fn sweep(flow: &Flow, rows: &mut Vec<Bits>, set: &mut Bits) -> bool
    requires flow { IsFlowFormed flow.now }
    requires len { length rows.old.items ≡ length (contents flow.now.places) }
    requires size { length set.old ≡ flow.now.bound }
    requires sizes { HasSizes flow.now.bound rows.old.items }
    ensures size { length set.new ≡ flow.now.bound }
    ensures swept { Swept flow.now rows.old.items rows.new.items result }
{
    let mut grew = false;
    let mut p = rows.len();
    while p > 0 {
        p -= 1;
        let grew_here = visit(flow, p, rows, set);
        grew = grew || grew_here;
    }
    grew
}

/// Visits each place, from the first to the last, and answers whether a set grew.
fn sweep_up(flow: &Flow, rows: &mut Vec<Bits>, set: &mut Bits) -> bool
    requires flow { IsFlowFormed flow.now }
    requires len { length rows.old.items ≡ length (contents flow.now.places) }
    requires size { length set.old ≡ flow.now.bound }
    requires sizes { HasSizes flow.now.bound rows.old.items }
    ensures size { length set.new ≡ flow.now.bound }
    ensures swept { Swept flow.now rows.old.items rows.new.items result }
{
    let mut grew = false;
    let count = rows.len();
    for p in 0..count {
        let grew_here = visit(flow, p, rows, set);
        grew = either(grew, grew_here);
    }
    grew
}

/// Visits the places in both directions, and answers whether a set grew.
pub(crate) fn sweep_both(flow: &Flow, rows: &mut Vec<Bits>, set: &mut Bits) -> bool
    requires flow { IsFlowFormed flow.now }
    requires len { length rows.old.items ≡ length (contents flow.now.places) }
    requires size { length set.old ≡ flow.now.bound }
    requires sizes { HasSizes flow.now.bound rows.old.items }
    ensures size { length set.new ≡ flow.now.bound }
    ensures swept { Swept flow.now rows.old.items rows.new.items result }
{
    let up = sweep_up(flow, rows, set);
    let down = sweep(flow, rows, set);
    either(up, down)
}
