//! The registers that code reads, by their numbers.
ghost use Rattle.std.specs.Prelude.{◌≡◌, None, replicate, IfOk};
ghost use Rattle.sink.specs.Registers.{registers_entered, entered_code};

use mach_ir::{Instr, Reg};
use std::alloc::{AllocError, Global};

/// Enters registers at their numbers, where the table has these.
fn enter(table: &mut Vec<Option<Reg>>, regs: &[Reg])
    ensures { table.new.items ≡ registers_entered regs.now table.old.items }
{
    for reg in regs {
        let index = reg.number as usize;
        if index < table.len() {
            table[index] = Some(*reg);
        }
    }
}

/// The registers that the code reads, by their numbers, which are below `size`.
/// The only error is want of memory.
pub fn registers_read(
    alloc: Global,
    code: &[Instr],
    size: u32,
) -> Result<Vec<Option<Reg>>, AllocError>
    ensures { IfOk result (λ table. table.items ≡ entered_code code.now (replicate size None)) }
{
    let mut table: Vec<Option<Reg>> = vec![in alloc; None; size as usize]?;
    for instr in code {
        enter(&mut table, instr.args.as_slice());
    }
    Ok(table)
}
