//! Splitting, whole.
ghost use Rattle.std.specs.Prelude.{◌<◌, ◌+◌, ◌^◌, suc, length, IfOk};
ghost use Rattle.mach_ir.specs.Formed.{WellFormed};
ghost use Rattle.mach_ir.specs.Placed.{WellPlaced};
ghost use Rattle.mach_ir.specs.Sizes.{HasRoom, number_limit};
ghost use Rattle.mach_ir.specs.Walks.{IsRegister};
ghost use Rattle.mach_ir.specs.declared.reg.Reg.{Reg};
ghost use Rattle.split.specs.Names.{AreSplitTables};
ghost use Rattle.split_rules.specs.Order.{writes_of};
ghost use Rattle.split_rules.specs.Split.{IsSplit, split_size};

use crate::joins::webs_of;
use crate::names::names_of;
use crate::reach::reach;
use crate::rename::rename_code;
use crate::tables::Tables;
use crate::writes::Writes;
use liveness::first_free;
use mach_ir::Mach;
use std::alloc::{AllocError, Global};

/// The tables of a function whose registers have numbers below `free`.
fn tables_of(alloc: Global, mach: &Mach, free: u32) -> Result<Tables, AllocError>
    requires fits { suc (length mach.now.code) < 2 ^ 32 }
    requires room { free + length (writes_of mach.now) < number_limit }
    requires numbers { (r : Reg) → IsRegister mach.now r → r.number < free }
    ensures { IfOk result (λ tables. WellFormed mach.now → WellPlaced mach.now →
        AreSplitTables mach.now free tables) }
{
    let writes = Writes::of_function(alloc, mach, free)?;
    let rows = reach(alloc, mach, free, &writes)?;
    let labels = webs_of(alloc, mach, free, &writes, &rows)?;
    let names = names_of(alloc, &writes, labels.as_slice(), free)?;
    Ok(Tables {
        writes,
        rows,
        names,
    })
}

/// The function with a number of its own for each web of a register whose place is open.
///
/// Two writes of a register are joined where there is a place at which it is live and to which both
/// come; a web is what a chain of joined writes connects. Webs are known by their first writes in the
/// order of the text, in which the entry, which writes the parameters, comes first. The web of a
/// register's first write keeps the register's number, any other has the index of its first write, from
/// the first free number on. Nothing else changes.
///
/// The time is that of `dataflow::reaching` over the writes. The only error is want of memory.
pub fn split(alloc: Global, mach: Mach) -> Result<Mach, AllocError>
    requires room { HasRoom (split_size (length mach.params)) mach }
    ensures { IfOk result (λ made. WellFormed mach → WellPlaced mach → IsSplit mach made) }
{
    let end = mach.code.len() as u32;
    let free = first_free(&mach);
    let tables = tables_of(alloc, &mach, free)?;
    let Mach {
        name,
        params,
        result,
        labels,
        colours,
        code,
    } = mach;
    let code = rename_code(alloc, &tables, end, code)?;
    Ok(Mach {
        name,
        params,
        result,
        labels,
        colours,
        code,
    })
}
