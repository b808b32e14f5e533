//! Operands, read from the registers that they are copies of.
ghost use Rattle.std.specs.Prelude.{◌≡◌, [], map, IfOk};
ghost use Rattle.mach_ir.specs.Formed.{WellFormed};
ghost use Rattle.cse_copy_rules.specs.Propagated.{IsPropagated};
ghost use Rattle.cse_deadcode.specs.Made.{made_by};
ghost use Rattle.cse_deadcode.specs.Times.{time_in};
ghost use Rattle.cse_deadcode.specs.Copies.{is_still_copy, source_by, source_at, source_of};
ghost use Rattle.cse_deadcode.specs.Copies.{read_by, read_from_sources};

use crate::events::Event;
use crate::repeats::result_stands;
use crate::times::Times;
use mach_ir::{Instr, Mach, Reg, Seq, same_comp};
use std::alloc::{AllocError, Global};

/// Whether the register, which a move from the source wrote last, at the time, is still its copy.
fn is_copy(times: &Times, time: usize, source: &Reg, reg: &Reg) -> bool
    ensures { result ≡ is_still_copy (time_in times.now) time source.now reg.now }
{
    same_comp(source.comp, reg.comp)
        && (source.is_open()
            && (reg.is_open()
                && (times.last(Event::EndsRun) <= time && result_stands(times, time, source))))
}

/// What is read in place of the register, which the instruction wrote last, at the time.
fn source_by(times: &Times, time: usize, earlier: &Instr, reg: Reg) -> Reg
    ensures { result ≡ source_by (time_in times.now) time earlier.now reg }
{
    if !earlier.op.is_move() {
        return reg;
    }
    match earlier.args.get(0) {
        None => reg,
        Some(source) => {
            if is_copy(times, time, source, &reg) {
                *source
            } else {
                reg
            }
        }
    }
}

/// What is read in place of the register, which was written last at the time. At 0 none wrote it.
fn source_at(times: &Times, made: &[Instr], time: usize, reg: Reg) -> Reg
    ensures { result ≡ source_at (time_in times.now) made.now time reg }
{
    if time == 0 {
        return reg;
    }
    match made.get(time - 1) {
        None => reg,
        Some(earlier) => source_by(times, time, earlier, reg),
    }
}

/// What is read in place of the register after this code.
fn source_of(times: &Times, made: &[Instr], reg: Reg) -> Reg
    ensures { result ≡ source_of (time_in times.now) made.now reg }
{
    source_at(times, made, times.last(Event::Writes(reg.number)), reg)
}

fn read_each(times: &Times, made: &[Instr], regs: &mut [Reg])
    ensures { regs.new ≡ map (source_of (time_in times.now) made.now) regs.old }
{
    for reg in regs.iter_mut() {
        *reg = source_of(times, made, *reg);
    }
}

/// The instruction, its operands read from what they are copies of after this code. It takes no memory.
fn read_sources(times: &Times, made: &[Instr], instr: Instr) -> Instr
    ensures { result ≡ read_by (source_of (time_in times.now) made.now) instr }
{
    let Instr { op, args, results } = instr;
    let mut args = args.into_vec();
    read_each(times, made, args.as_mut_slice());
    Instr {
        op,
        args: Seq::from_vec(args),
        results,
    }
}

fn with_sources(alloc: Global, code: Seq<Instr>) -> Result<Seq<Instr>, AllocError>
    ensures { IfOk result (λ made. made ≡ made_by read_from_sources [] code) }
{
    let mut times = Times::new(alloc);
    let mut made = Vec::with_capacity(alloc, code.len())?;
    for instr in code.into_vec() {
        let instr = read_sources(&times, made.as_slice(), instr);
        times.note_instr(&instr, made.len() + 1)?;
        made.push(instr)?;
    }
    Ok(Seq::from_vec(made))
}

/// The function in which each operand that is a copy of another register is read from that one: a move
/// of its straight run made it so, both still hold what it moved, and neither has a place.
///
/// Registers are taken by number, so the function must be well-formed. A copy of a copy is read from
/// the first source, since the move between them reads that already. The time is that of a few look-ups
/// by number for each register, and of one in a map for each operator; memory grows as the greatest
/// number does. The only error is want of memory.
pub fn propagate(alloc: Global, mach: Mach) -> Result<Mach, AllocError>
    requires formed { WellFormed mach }
    ensures { IfOk result (λ after. IsPropagated mach after) }
{
    let Mach {
        name,
        params,
        result,
        labels,
        colours,
        code,
    } = mach;
    let code = with_sources(alloc, code)?;
    Ok(Mach {
        name,
        params,
        result,
        labels,
        colours,
        code,
    })
}
