//! The last resort: registers whose places are open go to slots.
ghost use Rattle.std.specs.Prelude.{◌≡◌, IfOk};
ghost use Rattle.colouring_rules.specs.Places.{located_register, all_placed, placed_instr, placed_code, last_resort, rest_in_slots};

use bs_words::Loc;
use mach_ir::{Instr, Mach, Reg, Seq};
use std::alloc::{AllocError, Global};

/// The register in the slot that has its origin's number, where its place is open, and else as it is.
fn rest_register(reg: Reg) -> Reg
    ensures { result ≡ located_register last_resort reg }
{
    match reg.loc {
        Loc::Unset => Reg {
            loc: Loc::Slot(reg.origin),
            ..reg
        },
        Loc::Machine(_register) => reg,
        Loc::Slot(_slot) => reg,
    }
}

/// The same of each of these registers.
fn rest_each(regs: &mut [Reg])
    ensures { regs.new ≡ all_placed last_resort regs.old }
{
    for reg in regs.iter_mut() {
        *reg = rest_register(*reg);
    }
}

/// The same of registers, in their order. It takes no memory.
fn rest_registers(regs: Seq<Reg>) -> Seq<Reg>
    ensures { result ≡ all_placed last_resort regs }
{
    let mut items = regs.into_vec();
    rest_each(items.as_mut_slice());
    Seq::from_vec(items)
}

/// The same of the operands and results of an instruction. It takes no memory.
fn rest_instr(instr: Instr) -> Instr
    ensures { result ≡ placed_instr last_resort instr }
{
    let Instr { op, args, results } = instr;
    Instr {
        op,
        args: rest_registers(args),
        results: rest_registers(results),
    }
}

/// The same of each instruction of a code.
fn rest_code(alloc: Global, code: Seq<Instr>) -> Result<Seq<Instr>, AllocError>
    ensures { IfOk result (λ rested. rested ≡ placed_code last_resort code) }
{
    let mut rested = Vec::with_capacity(alloc, code.len())?;
    for instr in code.into_vec() {
        rested.push(rest_instr(instr))?;
    }
    Ok(Seq::from_vec(rested))
}

/// The function with each register whose place is open in the slot that has its origin's number.
///
/// The time is linear in the function. The only error is want of memory.
pub(crate) fn rest_in_slots(alloc: Global, mach: Mach) -> Result<Mach, AllocError>
    ensures { IfOk result (λ rested. rested ≡ rest_in_slots mach) }
{
    let Mach {
        name,
        params,
        result,
        labels,
        colours,
        code,
    } = mach;
    let code = rest_code(alloc, code)?;
    Ok(Mach {
        name,
        params: rest_registers(params),
        result,
        labels,
        colours: rest_registers(colours),
        code,
    })
}
