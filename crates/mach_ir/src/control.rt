//! Where control goes on from an operation.
ghost use Rattle.std.specs.Prelude.{◌≡◌, ◌<◌, ◌^◌, suc, IfOk};
ghost use Rattle.mach_ir.specs.Acts.{falls_through};
ghost use Rattle.mach_ir.specs.Labels.{next_place};

use crate::op::Op;
use dataflow::one_place;
use std::alloc::{AllocError, Global};

/// The place after the operation at the place, if it goes on; a raise apart. The only error is want of
/// memory.
pub fn places_after_op(alloc: Global, op: &Op, place: u32) -> Result<Vec<u32>, AllocError>
    requires { suc place < 2 ^ 32 }
    ensures { IfOk result (λ places. places.items ≡ next_place (falls_through op.now) place) }
{
    if op.goes_on() {
        one_place(alloc, place + 1)
    } else {
        Ok(Vec::new(alloc))
    }
}
