//! How often registers are written.
ghost use Rattle.std.specs.Prelude.{◌≡◌, ℕ, IfOk};
ghost use Rattle.mach_ir.specs.NumberTables.{table_entry};
ghost use Rattle.hoist.specs.Written.{more, writes_counted, noted_in, times, is_once};

use mach_ir::{Instr, Mach, NumberTable, Reg};
use std::alloc::{AllocError, Global};

/// Once more: 2 stands for each greater number too.
fn more(times: usize) -> usize
    ensures { result ≡ more times }
{
    if times == 0 { 1 } else { 2 }
}

fn note_writes(writes: &mut NumberTable, regs: &[Reg]) -> Result<(), AllocError>
    ensures { IfOk result (λ _. (n : ℕ) →
        table_entry writes.new n ≡ writes_counted n regs.now (table_entry writes.old n)) }
{
    for reg in regs {
        let times = more(writes.get(reg.number));
        writes.put(reg.number, times)?;
    }
    Ok(())
}

fn note_code(writes: &mut NumberTable, code: &[Instr]) -> Result<(), AllocError>
    ensures { IfOk result (λ _. (n : ℕ) →
        table_entry writes.new n ≡ noted_in n code.now (table_entry writes.old n)) }
{
    for instr in code {
        note_writes(writes, instr.results.as_slice())?;
    }
    Ok(())
}

/// How often each register is written, by its number: 0, 1 or, for more, 2. The entry writes the
/// parameters. What an instruction destroys is at a colour, and is not counted.
/// The only error is want of memory.
pub fn times_written(alloc: Global, mach: &Mach) -> Result<NumberTable, AllocError>
    ensures { IfOk result (λ writes. (n : ℕ) → table_entry writes n ≡ times mach.now n) }
{
    let mut writes = NumberTable::new(alloc);
    note_writes(&mut writes, mach.params.as_slice())?;
    note_code(&mut writes, mach.code.as_slice())?;
    Ok(writes)
}

/// Whether its results are written nowhere else.
pub fn is_once(writes: &NumberTable, instr: &Instr) -> bool
    ensures { result ≡ is_once (table_entry writes.now) instr.now }
{
    instr
        .results
        .as_slice()
        .iter()
        .all(|reg| writes.get(reg.number) == 1)
}
