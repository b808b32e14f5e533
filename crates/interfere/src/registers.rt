//! The registers of a function by number.
ghost use Rattle.std.specs.Prelude.{◌≡◌, ◌<◌, ℕ, Some, None, All, Contains, length, slice_index_or, IfOk};
ghost use Rattle.mach_ir.specs.Walks.{IsRegister, InCode};
ghost use Rattle.mach_ir.specs.declared.reg.Reg.{Reg};
ghost use Rattle.interfere.specs.Registers.{Enters, AreNumberedRegisters};

use mach_ir::{Instr, Mach, Reg};
use std::alloc::{AllocError, Global};

/// No register for each number below `size`.
fn no_registers(alloc: Global, size: u32) -> Result<Vec<Option<Reg>>, AllocError>
    ensures len { IfOk result (λ table. length table.items ≡ size) }
    ensures none { IfOk result (λ table. (n : ℕ) → slice_index_or table.items n None ≡ None) }
{
    let mut table = Vec::with_capacity(alloc, size as usize)?;
    for _number in 0..size {
        table.push(None)?;
    }
    Ok(table)
}

/// Enters registers at their numbers.
fn enter(table: &mut Vec<Option<Reg>>, regs: &[Reg])
    requires { All (λ (r : Reg). r.number < length table.old.items) regs.now }
    ensures { Enters table.old.items table.new.items (Contains regs.now) }
{
    for reg in regs {
        table[reg.number as usize] = Some(*reg);
    }
}

fn enter_code(table: &mut Vec<Option<Reg>>, code: &[Instr])
    requires { (r : Reg) → InCode r code.now → r.number < length table.old.items }
    ensures { Enters table.old.items table.new.items (λ r. InCode r code.now) }
{
    for instr in code {
        enter(table, instr.args.as_slice());
        enter(table, instr.results.as_slice());
    }
}

/// The registers of the function at their numbers, which are below `size`.
/// The only error is want of memory.
pub fn registers_of(alloc: Global, mach: &Mach, size: u32) -> Result<Vec<Option<Reg>>, AllocError>
    requires { (r : Reg) → IsRegister mach.now r → r.number < size }
    ensures { IfOk result (λ table. AreNumberedRegisters mach.now size table.items) }
{
    let mut table = no_registers(alloc, size)?;
    enter(&mut table, mach.params.as_slice());
    enter(&mut table, mach.colours.as_slice());
    enter_code(&mut table, mach.code.as_slice());
    Ok(table)
}
