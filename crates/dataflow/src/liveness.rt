//! Which numbers are live before each place.
ghost use Rattle.std.specs.Prelude.{◌≡◌, ◌<◌, false, replicate, IfOk};
ghost use Rattle.dataflow.specs.Flow.{IsFlowFormed};
ghost use Rattle.dataflow.specs.Live.{IsLiveness};

use crate::sweep::{sweep, sweep_both};
use crate::{Flow, Rows};
use bs_bits::Bits;
use std::alloc::{AllocError, Global};

/// An empty set of numbers below `bound` for each of `count` places.
/// The only error is want of memory.
pub fn empty_rows(alloc: Global, count: usize, bound: u32) -> Result<Vec<Bits>, AllocError>
    ensures { IfOk result (λ rows. rows.items ≡ replicate count (replicate bound false)) }
{
    let mut rows = Vec::with_capacity(alloc, count)?;
    for _place in 0..count {
        rows.push(Bits::new(alloc, bound)?)?;
    }
    Ok(rows)
}

/// The numbers that are live before each place: those that some walk from it reads before it writes
/// them.
///
/// It sweeps over the places backwards until no set grows, so a graph whose places are in the order
/// of control takes one sweep for each depth of loops and two more. Its memory is a row of
/// `bound / 8` bytes for each place and one more. The only error is want of memory.
pub fn live(alloc: Global, flow: &Flow) -> Result<Rows, AllocError>
    requires { IsFlowFormed flow.now }
    ensures { IfOk result (λ rows. IsLiveness flow.now rows.rows.items) }
{
    let mut rows = empty_rows(alloc, flow.places.len(), flow.bound)?;
    let mut set = Bits::new(alloc, flow.bound)?;
    let mut grew = true;
    while grew {
        grew = sweep(flow, &mut rows, &mut set);
    }
    Ok(Rows { rows })
}

/// The same as `live`, for a graph whose places are not in the order of control.
///
/// It sweeps over the places in both directions until no set grows, so a graph takes one turn for each time
/// that a walk changes between the directions, and two more. The only error is want of memory.
pub fn live_in_any_order(alloc: Global, flow: &Flow) -> Result<Rows, AllocError>
    requires { IsFlowFormed flow.now }
    ensures { IfOk result (λ rows. IsLiveness flow.now rows.rows.items) }
{
    let mut rows = empty_rows(alloc, flow.places.len(), flow.bound)?;
    let mut set = Bits::new(alloc, flow.bound)?;
    let mut grew = true;
    while grew {
        grew = sweep_both(flow, &mut rows, &mut set);
    }
    Ok(Rows { rows })
}
