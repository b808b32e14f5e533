//! The passes, in their order.
ghost use Rattle.std.specs.Prelude.{length, IfOk};
ghost use Rattle.mach_ir.specs.Sizes.{HasRoom};
ghost use Rattle.prepare_rules.specs.Prepared.{IsPreparable, prepared_size};
ghost use Rattle.prepare_rules.specs.Stages.{IsOverMach, IsPassedTo};

use comballoc::combine;
use cse_deadcode::{cse, drop_dead, propagate};
use hoist::hoist;
use mach_ir::Mach;
use sink::sink;
use spill::spill;
use split::split;
use stages::Stage;
use std::alloc::{AllocError, Global};

/// What the passes up to a stage make of a function: each stage is what the one before it gives, through the passes of
/// its own.
///
/// The only error is want of memory.
pub fn passed_to(alloc: Global, mach: Mach, stage: Stage) -> Result<Mach, AllocError>
    requires preparable { IsPreparable mach }
    requires room { HasRoom (prepared_size (length mach.params)) mach }
    requires over_mach { IsOverMach stage }
    ensures { IfOk result (IsPassedTo mach stage) }
{
    match stage {
        Stage::Select => Ok(mach),
        Stage::CombAlloc => combine(alloc, mach),
        Stage::Cse => {
            let combined = passed_to(alloc, mach, Stage::CombAlloc)?;
            let read = propagate(alloc, combined)?;
            let common = cse(alloc, read)?;
            // what was computed from a repeat is one too
            let again = propagate(alloc, common)?;
            cse(alloc, again)
        }
        Stage::Dead => {
            let repeated = passed_to(alloc, mach, Stage::Cse)?;
            drop_dead(alloc, repeated)
        }
        Stage::Spill => {
            let dropped = passed_to(alloc, mach, Stage::Dead)?;
            let hoisted = hoist(alloc, dropped)?;
            let sunk = sink(alloc, hoisted)?;
            spill(alloc, sunk)
        }
        _ => {
            let spilled = passed_to(alloc, mach, Stage::Spill)?;
            split(alloc, spilled)
        }
    }
}
