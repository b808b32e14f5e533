//! The numbers of a function's registers.
ghost use Rattle.std.specs.Prelude.{◌<◌, ◌≤◌, ℕ, suc, All};
ghost use Rattle.mach_ir.specs.Sizes.{IsCountable, number_limit};
ghost use Rattle.mach_ir.specs.Walks.{InCode, IsRegister};
ghost use Rattle.mach_ir.specs.declared.reg.Reg.{Reg};
ghost use Rattle.liveness.specs.Numbers.{IsLeastAbove, IsAboveCode};

use mach_ir::{Instr, Mach, Reg};

/// The least number, from `bound` on, that is above those of these registers.
fn above(bound: u32, regs: &[Reg]) -> u32
    requires { All (λ (r : Reg). suc r.number < number_limit) regs.now }
    ensures { IsLeastAbove bound regs.now result }
{
    let mut above = bound;
    for reg in regs {
        let next = reg.number + 1;
        above = above.max(next);
    }
    above
}

fn above_code(bound: u32, code: &[Instr]) -> u32
    requires { (r : Reg) → InCode r code.now → suc r.number < number_limit }
    ensures { IsAboveCode bound code.now result }
{
    let mut above_all = bound;
    for instr in code {
        let above_args = above(above_all, instr.args.as_slice());
        above_all = above(above_args, instr.results.as_slice());
    }
    above_all
}

/// The least number that is above those of all registers of the function.
pub fn first_free(mach: &Mach) -> u32
    requires countable { IsCountable mach.now }
    ensures above { (r : Reg) → IsRegister mach.now r → r.number < result }
    ensures least { (b : ℕ) → ((r : Reg) → IsRegister mach.now r → r.number < b) → result ≤ b }
{
    let above_params = above(0, mach.params.as_slice());
    let above_colours = above(above_params, mach.colours.as_slice());
    above_code(above_colours, mach.code.as_slice())
}
