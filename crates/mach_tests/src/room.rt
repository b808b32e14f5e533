//! Whether a function has room.
ghost use Rattle.std.specs.Prelude.{◌↔◌, ◌≤◌, All, length, IsTrue};
ghost use Rattle.mach_ir.specs.Sizes.{HasRoom, operand_count};
ghost use Rattle.mach_ir.specs.declared.mach.Instr.{Instr};
ghost use Rattle.mach_tests.specs.Room.{wide, most, HasLowNumbers, IsShort, AreLow};

use mach_ir::{Instr, Mach, Reg};

/// The most instructions, operands and results, parameters and labels, and above each number of a
/// register and of its origin: 2^29.
const MOST: u32 = 536870912;

fn are_low(regs: &[Reg]) -> bool
    ensures { IsTrue result ↔ All HasLowNumbers regs.now }
{
    regs.iter()
        .all(|reg| reg.number < MOST && reg.origin < MOST)
}

fn args_are_low(code: &[Instr]) -> bool
    ensures { IsTrue result ↔ All (λ (i : Instr). All HasLowNumbers i.args) code.now }
{
    code.iter().all(|instr| are_low(instr.args.as_slice()))
}

fn results_are_low(code: &[Instr]) -> bool
    ensures { IsTrue result ↔ All (λ (i : Instr). All HasLowNumbers i.results) code.now }
{
    code.iter().all(|instr| are_low(instr.results.as_slice()))
}

/// Whether numbers and origins of all registers are low.
fn has_low(mach: &Mach) -> bool
    ensures { IsTrue result → AreLow mach.now }
{
    let code = mach.code.as_slice();
    are_low(mach.params.as_slice())
        && are_low(mach.colours.as_slice())
        && args_are_low(code)
        && results_are_low(code)
}

fn is_short(mach: &Mach) -> bool
    ensures { IsTrue result → IsShort mach.now }
{
    let most = MOST as usize;
    mach.code.len() <= most && mach.params.len() <= most && mach.labels <= MOST
}

/// Whether the code has at most `MOST` operands and results.
fn has_few_operands(code: &[Instr]) -> bool
    ensures { IsTrue result → operand_count code.now ≤ most }
{
    let mut left = MOST as usize;
    for instr in code {
        let args = instr.args.len();
        let results = instr.results.len();
        if left < args {
            return false;
        }
        left -= args;
        if left < results {
            return false;
        }
        left -= results;
    }
    true
}

/// Whether there are numbers for all that spilling, splitting, and splitting after spilling make of the
/// function, and so for what it has. Answers yes only where it has at most 2^29 instructions, operands and
/// results, parameters and labels, and lower numbers of registers.
pub fn has_room(mach: &Mach) -> bool
    ensures { IsTrue result → HasRoom (wide (length mach.now.params)) mach.now }
{
    is_short(mach) && has_low(mach) && has_few_operands(mach.code.as_slice())
}
