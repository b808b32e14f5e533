//! Spilling, whole.
ghost use Rattle.std.specs.Prelude.{IfOk};
ghost use Rattle.mach_ir.specs.Formed.{WellFormed};
ghost use Rattle.mach_ir.specs.Placed.{WellPlaced};
ghost use Rattle.mach_ir.specs.Sizes.{HasRoom, IsCountable};
ghost use Rattle.spill_rules.specs.Chosen.{IsSpilled, ParamsPlaced, IsChosenKept, spilled_size};
ghost use Rattle.spill.specs.Tables.{AreSpillTables};

use crate::copies::spill_code;
use crate::lost::lost;
use crate::tables::Tables;
use crate::wanted::wanted;
use liveness::{LiveFlow, first_free, live_flow};
use mach_ir::Mach;
use std::alloc::{AllocError, Global};

/// The tables of a function.
fn tables_of(alloc: Global, mach: &Mach) -> Result<Tables, AllocError>
    requires countable { IsCountable mach.now }
    ensures { IfOk result (AreSpillTables mach.now) }
{
    let free = first_free(mach);
    let LiveFlow { flow, live } = live_flow(alloc, mach)?;
    let lost = lost(alloc, mach, &live, &flow)?;
    let wanted = wanted(alloc, mach, &lost, &flow)?;
    Ok(Tables { free, lost, wanted })
}

/// The function in which each register whose place is open and that lives over a call has a slot.
///
/// It is reloaded before each read to which some walk leads from a call or the entry of a handler that it
/// has lived over, with no read and no write of it between; each of its writes that comes to such a read
/// is stored right after it, and no other. A slot has the number of the register's origin, and its
/// register a number that no other has.
///
/// The flow graph of the function is made once, and what is live, what is lost and what is wanted are
/// solved over it. The time is that of a sweep over the function for each depth of its loops and two
/// more, three times. The only error is want of memory.
pub fn spill(alloc: Global, mach: Mach) -> Result<Mach, AllocError>
    requires room { HasRoom spilled_size mach }
    ensures spilled { IfOk result (λ made. WellFormed mach → IsSpilled mach made) }
    ensures kept { IfOk result (λ made. WellFormed mach → WellPlaced mach → ParamsPlaced mach →
        (s : IsSpilled mach made) → IsChosenKept mach made s.plan) }
{
    let tables = tables_of(alloc, &mach)?;
    let Mach {
        name,
        params,
        result,
        labels,
        colours,
        code,
    } = mach;
    let code = spill_code(alloc, &tables, code)?;
    Ok(Mach {
        name,
        params,
        result,
        labels,
        colours,
        code,
    })
}
