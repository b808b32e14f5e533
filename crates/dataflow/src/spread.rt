//! One sweep over the places in their order: what comes to the places after each.
ghost use Rattle.std.specs.Prelude.{◌≡◌, ℕ, ◌<◌, ◌||◌, length};
ghost use Rattle.std.specs.List.{All};
ghost use Rattle.bs_bits.specs.Set.{has};
ghost use Rattle.bs_words.specs.Contents.{contents};
ghost use Rattle.dataflow.specs.Rows.{HasSizes};
ghost use Rattle.dataflow.specs.Flow.{IsPlace, IsFlowFormed};
ghost use Rattle.dataflow.specs.Spread.{Pushed, Spread, Moved, SweptOn};

use crate::sweep::{put_in, take_out};
use crate::{Flow, Place};
use bs_bits::Bits;

/// Whether one of two holds.
pub(crate) fn either(a: bool, b: bool) -> bool
    ensures { result ≡ (a || b) }
{
    a || b
}

/// Makes `set` the same set as the row.
fn copy_row(set: &mut Bits, row: &Bits)
    requires { length set.old ≡ length row.now }
    ensures size { length set.new ≡ length set.old }
    ensures members { (r : ℕ) → has set.new r ≡ has row.now r }
{
    set.clear();
    let _grew = set.union_with(row);
}

/// Adds the set to the sets of the places, and answers whether one grew.
fn push_rows(set: &Bits, rows: &mut Vec<Bits>, places: &[u32]) -> bool
    requires sizes { HasSizes (length set.now) rows.old.items }
    requires within { All (λ q. q < length rows.old.items) places.now }
    ensures { Pushed set.now rows.old.items rows.new.items places.now result }
{
    let mut grew = false;
    for q in places {
        let row = &mut rows[*q as usize];
        let grew_here = row.union_with(set);
        grew = either(grew, grew_here);
    }
    grew
}

/// Adds what comes to place `p` to the places aside, and what leaves it to the next ones.
fn spread(place: &Place, p: usize, rows: &mut Vec<Bits>, set: &mut Bits) -> bool
    requires place { IsPlace (length rows.old.items) (length set.old) place.now }
    requires sizes { HasSizes (length set.old) rows.old.items }
    requires within { p < length rows.old.items }
    ensures size { length set.new ≡ length set.old }
    ensures spread { Spread place.now (length set.old) rows.old.items rows.new.items p result }
{
    copy_row(set, &rows[p]);
    let aside_grew = push_rows(set, rows, place.aside.as_slice());
    take_out(set, place.writes.as_slice());
    put_in(set, place.reads.as_slice());
    let next_grew = push_rows(set, rows, place.next.as_slice());
    either(aside_grew, next_grew)
}

/// The same for a place of a graph.
fn move_on(flow: &Flow, p: usize, rows: &mut Vec<Bits>, set: &mut Bits) -> bool
    requires flow { IsFlowFormed flow.now }
    requires len { length rows.old.items ≡ length (contents flow.now.places) }
    requires within { p < length rows.old.items }
    requires size { length set.old ≡ flow.now.bound }
    requires sizes { HasSizes flow.now.bound rows.old.items }
    ensures size { length set.new ≡ flow.now.bound }
    ensures moved { Moved flow.now rows.old.items rows.new.items p result }
{
    spread(&flow.places[p], p, rows, set)
}

/// Visits each place, from the first to the last, and answers whether a set grew.
pub(crate) fn sweep_on(flow: &Flow, rows: &mut Vec<Bits>, set: &mut Bits) -> bool
    requires flow { IsFlowFormed flow.now }
    requires len { length rows.old.items ≡ length (contents flow.now.places) }
    requires size { length set.old ≡ flow.now.bound }
    requires sizes { HasSizes flow.now.bound rows.old.items }
    ensures size { length set.new ≡ flow.now.bound }
    ensures swept { SweptOn flow.now rows.old.items rows.new.items result }
{
    let mut grew = false;
    let count = rows.len();
    for p in 0..count {
        let grew_here = move_on(flow, p, rows, set);
        grew = either(grew, grew_here);
    }
    grew
}
