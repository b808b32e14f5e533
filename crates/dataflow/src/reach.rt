//! Which numbers reach each place.
//!
//! This is a solver of its own, forwards over the same tables. Liveness on a reversed graph would be wrong:
//! a write belongs to the place that the original edge leaves.
ghost use Rattle.std.specs.Prelude.{IfOk};
ghost use Rattle.dataflow.specs.Flow.{IsFlowFormed};
ghost use Rattle.dataflow.specs.Reach.{IsReaching};

use crate::liveness::empty_rows;
use crate::spread::sweep_on;
use crate::{Flow, Rows};
use bs_bits::Bits;
use std::alloc::{AllocError, Global};

/// The numbers that reach each place, as reaching definitions do: the question of `live` asked the other
/// way. A number comes from a place whose gen set has it, over places whose kill set does not.
///
/// The gen set of a place is its `reads`, the kill set its `writes`; what is in both reaches the places
/// after it. A step aside generates and kills nothing. It sweeps over the places forwards until no set
/// grows, so a graph whose places are in the order of control takes one sweep for each depth of loops
/// and two more. Its memory is a row of `bound / 8` bytes for each place and one more.
/// The only error is want of memory.
pub fn reaching(alloc: Global, flow: &Flow) -> Result<Rows, AllocError>
    requires { IsFlowFormed flow.now }
    ensures { IfOk result (λ rows. IsReaching flow.now rows.rows.items) }
{
    let mut rows = empty_rows(alloc, flow.places.len(), flow.bound)?;
    let mut set = Bits::new(alloc, flow.bound)?;
    let mut grew = true;
    while grew {
        grew = sweep_on(flow, &mut rows, &mut set);
    }
    Ok(Rows { rows })
}
