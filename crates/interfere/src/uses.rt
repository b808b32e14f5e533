//! How often the code reads or writes each register.
//!
//! Each use counts one, in a loop or not: Mach has no loops but exits that go back.
ghost use Rattle.std.specs.Prelude.{◌≡◌, ◌+◌, ◌<◌, ℕ, All, length, slice_index, IfOk};
ghost use Rattle.mach_ir.specs.Graph.{times_among, uses_of};
ghost use Rattle.mach_ir.specs.Sizes.{operand_count, number_limit};
ghost use Rattle.mach_ir.specs.Walks.{InCode};
ghost use Rattle.mach_ir.specs.declared.reg.Reg.{Reg};

use mach_ir::{Instr, Reg};
use std::alloc::{AllocError, Global};

/// Counts registers, by number.
fn count(uses: &mut Vec<u32>, regs: &[Reg])
    requires numbers { All (λ (r : Reg). r.number < length uses.old.items) regs.now }
    requires countable { (n : ℕ) →
        slice_index uses.old.items n + times_among n regs.now < number_limit }
    ensures len { length uses.new.items ≡ length uses.old.items }
    ensures more { (n : ℕ) →
        slice_index uses.new.items n ≡ slice_index uses.old.items n + times_among n regs.now }
{
    for reg in regs {
        uses[reg.number as usize] += 1;
    }
}

/// For each number below `size` how often the code reads or writes it. The only error is want of memory.
pub fn uses_of(alloc: Global, code: &[Instr], size: u32) -> Result<Vec<u32>, AllocError>
    requires numbers { (r : Reg) → InCode r code.now → r.number < size }
    requires countable { operand_count code.now < number_limit }
    ensures len { IfOk result (λ uses. length uses.items ≡ size) }
    ensures uses { IfOk result (λ uses. (n : ℕ) → slice_index uses.items n ≡ uses_of n code.now) }
{
    let mut uses = vec![in alloc; 0u32; size as usize]?;
    for instr in code {
        count(&mut uses, instr.args.as_slice());
        count(&mut uses, instr.results.as_slice());
    }
    Ok(uses)
}
