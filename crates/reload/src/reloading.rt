//! The function with its reloads and spills.
ghost use Rattle.std.specs.Prelude.{◌≡◌, ◌+◌, ◌<◌, ◌++◌, IfOk};
ghost use Rattle.mach_ir.specs.Formed.{WellFormed};
ghost use Rattle.mach_ir.specs.Graph.{coloured_location};
ghost use Rattle.mach_ir.specs.Placed.{IsProperColouring};
ghost use Rattle.mach_ir.specs.Sizes.{HasRoom, number_limit};
ghost use Rattle.mach_ir.specs.Walks.{IsRegister, Joined};
ghost use Rattle.mach_ir.specs.declared.mach.Mach.{Mach};
ghost use Rattle.pass_rules.specs.Measures.{other_operands};
ghost use Rattle.reload_rules.specs.Kept.{with_copies};
ghost use Rattle.reload_rules.specs.Reloaded.{needs_registers, any_needs, reloaded_instr, past_instr, reloaded_code, IsReloadedBy};

use crate::places::{Putting, put_all};
use crate::registers::{
    any_renewed, number_past, push_reloads, push_spills, reads_registers, renewed, writes_registers,
};
use liveness::first_free;
use mach_ir::{Colours, Instr, Mach, Seq};
use std::alloc::{AllocError, Global};

/// Whether an operand or a result is in a slot and may not.
fn needs_registers(instr: &Instr) -> bool
    ensures { result ≡ needs_registers instr.now }
{
    any_renewed(reads_registers(&instr.op), instr.args.as_slice())
        || any_renewed(writes_registers(&instr.op), instr.results.as_slice())
}

fn any_needs(code: &[Instr]) -> bool
    ensures { result ≡ any_needs code.now }
{
    for instr in code {
        if needs_registers(instr) {
            return true;
        }
    }
    false
}

/// Puts the instruction over its fresh registers after the code, with its reloads and spills. The number is
/// the next one.
fn push_instr(
    alloc: Global,
    number: u32,
    instr: Instr,
    code: &mut Vec<Instr>,
) -> Result<u32, AllocError>
    requires room { past_instr number instr < number_limit }
    ensures number { IfOk result (λ next. next ≡ past_instr number instr) }
    ensures code { IfOk result (λ _.
        code.new.items ≡ code.old.items ++ reloaded_instr number instr) }
{
    let Instr { op, args, results } = instr;
    let reads = reads_registers(&op);
    let writes = writes_registers(&op);
    let second = number_past(reads, number, args.as_slice());
    let next = number_past(writes, second, results.as_slice());
    push_reloads(alloc, reads, number, args.as_slice(), code)?;
    let new_args = renewed(alloc, reads, number, args.as_slice())?;
    let new_results = renewed(alloc, writes, second, results.as_slice())?;
    code.push(Instr {
        op,
        args: Seq::from_vec(new_args),
        results: Seq::from_vec(new_results),
    })?;
    push_spills(alloc, writes, second, results.as_slice(), code)?;
    Ok(next)
}

fn reloaded_code(alloc: Global, free: u32, code: Seq<Instr>) -> Result<Seq<Instr>, AllocError>
    requires room { free + other_operands code < number_limit }
    ensures { IfOk result (λ made. made ≡ reloaded_code free code) }
{
    let mut made = Vec::new(alloc);
    let mut number = free;
    for instr in code.into_vec() {
        number = push_instr(alloc, number, instr, &mut made)?;
    }
    Ok(Seq::from_vec(made))
}

/// What reloading makes of a function by its colours, and whether it asks for another round.
///
/// The time is linear in the function. The only error is want of memory.
pub fn reload(alloc: Global, mach: Mach, colours: &Colours) -> Result<(Mach, bool), AllocError>
    requires formed { WellFormed mach }
    requires colouring { IsProperColouring (IsRegister mach) (Joined mach) (coloured_location colours.now) }
    requires room { HasRoom (with_copies (other_operands mach.code)) mach }
    ensures { IfOk result (λ made. IsReloadedBy mach (coloured_location colours.now) made.0 made.1) }
{
    let free = first_free(&mach);
    let slotted = put_all(alloc, Putting::IntoSlots, colours, mach)?;
    if any_needs(slotted.code.as_slice()) {
        let code = reloaded_code(alloc, free, slotted.code)?;
        Ok((Mach { code, ..slotted }, true))
    } else {
        let coloured = put_all(alloc, Putting::Everywhere, colours, slotted)?;
        Ok((coloured, false))
    }
}
