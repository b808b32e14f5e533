//! Operators that repeat earlier ones, made moves.
ghost use Rattle.std.specs.Prelude.{◌≡◌, [], IfOk};
ghost use Rattle.mach_ir.specs.Formed.{WellFormed};
ghost use Rattle.cse_repeat_rules.specs.Repeated.{from_earlier, IsRepeated};
ghost use Rattle.cse_deadcode.specs.Made.{made_by};
ghost use Rattle.cse_deadcode.specs.Times.{time_in};
ghost use Rattle.cse_deadcode.specs.Repeats.{operands_stand, place_stands, value_stands, result_stands, repeat_stands};
ghost use Rattle.cse_deadcode.specs.Repeats.{standing_result, standing_at, repeated, without_repeat};

use crate::events::{Event, computation};
use crate::times::Times;
use bs_words::{Comp, Loc};
use mach_ir::{CopyKind, Instr, Mach, MachOp, Op, Pure, Reg, Seq};
use std::alloc::{AllocError, Global};

/// Whether no operand was written at the time or later.
fn operands_stand(times: &Times, time: usize, args: &[Reg]) -> bool
    ensures { result ≡ operands_stand (time_in times.now) time args.now }
{
    args.iter()
        .all(|reg| times.last(Event::Writes(reg.number)) < time)
}

/// Whether nothing was written in the fixed place later.
fn place_stands(times: &Times, time: usize, place: Loc) -> bool
    ensures { result ≡ place_stands (time_in times.now) time place }
{
    match place {
        Loc::Unset => true,
        Loc::Machine(colour) => times.last(Event::WritesColour(colour)) <= time,
        Loc::Slot(slot) => times.last(Event::WritesSlot(slot)) <= time,
    }
}

/// Whether nothing was allocated later, if it is an `addr`.
fn value_stands(times: &Times, time: usize, comp: Comp) -> bool
    ensures { result ≡ value_stands (time_in times.now) time comp }
{
    match comp {
        Comp::Addr => times.last(Event::Allocates) <= time,
        Comp::Int => true,
        Comp::Val => true,
        Comp::Float => true,
    }
}

/// Whether nothing that came later ended what the register held.
pub(crate) fn result_stands(times: &Times, time: usize, reg: &Reg) -> bool
    ensures { result ≡ result_stands (time_in times.now) time reg.now }
{
    times.last(Event::Writes(reg.number)) <= time
        && (times.last(Event::WritesOrigin(reg.origin)) <= time
            && (place_stands(times, time, reg.loc) && value_stands(times, time, reg.comp)))
}

/// Whether the register still holds what was computed from the operands at the time.
fn stands(times: &Times, time: usize, args: &[Reg], reg: &Reg) -> bool
    ensures { result ≡ repeat_stands (time_in times.now) time args.now reg.now }
{
    times.last(Event::EndsRun) < time
        && (operands_stand(times, time, args) && result_stands(times, time, reg))
}

/// The result of the earlier operator of that time, if it and the operands still hold what they held then.
fn standing(times: &Times, time: usize, earlier: &Instr) -> Option<Reg>
    ensures { result ≡ standing_result (time_in times.now) time earlier.now }
{
    match earlier.results.get(0) {
        None => None,
        Some(reg) => {
            if stands(times, time, earlier.args.as_slice(), reg) {
                Some(*reg)
            } else {
                None
            }
        }
    }
}

/// The result of the operator of that time in the code, if it and the operands still hold what they held
/// then. At 0 there is none.
fn standing_at(times: &Times, made: &[Instr], time: usize) -> Option<Reg>
    ensures { result ≡ standing_at (time_in times.now) made.now time }
{
    if time == 0 {
        return None;
    }
    match made.get(time - 1) {
        None => None,
        Some(earlier) => standing(times, time, earlier),
    }
}

/// The result of what the instruction repeats after this code, if it is an operator that repeats one.
fn repeated(times: &Times, made: &[Instr], instr: &Instr) -> Option<Reg>
    ensures { result ≡ repeated (time_in times.now) made.now instr.now }
{
    match &instr.op {
        MachOp::Op(Op::Pure(Pure::Operator(operator, right))) => {
            let computed = computation(*operator, *right, instr.args.as_slice());
            standing_at(times, made, times.last(Event::Computes(computed)))
        }
        MachOp::Op(Op::Pure(Pure::Copy(_))) => None,
        MachOp::Op(Op::Pure(Pure::Constant(_))) => None,
        MachOp::Op(Op::Pure(Pure::Symbol(_))) => None,
        MachOp::Op(Op::Access(_)) => None,
        MachOp::Op(Op::Calling(_)) => None,
        MachOp::Op(Op::Leaving(_)) => None,
        MachOp::Mark(_) => None,
    }
}

/// The instruction, or a move from the register in its place.
fn from_earlier(alloc: Global, earlier: Option<Reg>, instr: Instr) -> Result<Instr, AllocError>
    ensures { IfOk result (λ made. made ≡ from_earlier earlier instr) }
{
    match earlier {
        None => Ok(instr),
        Some(reg) => {
            let mut args = Vec::with_capacity(alloc, 1)?;
            args.push(reg)?;
            Ok(Instr {
                op: MachOp::Op(Op::Pure(Pure::Copy(CopyKind::Move))),
                args: Seq::from_vec(args),
                results: instr.results,
            })
        }
    }
}

fn without_repeats(alloc: Global, code: Seq<Instr>) -> Result<Seq<Instr>, AllocError>
    ensures { IfOk result (λ made. made ≡ made_by without_repeat [] code) }
{
    let mut times = Times::new(alloc);
    let mut made = Vec::with_capacity(alloc, code.len())?;
    for instr in code.into_vec() {
        let earlier = repeated(&times, made.as_slice(), &instr);
        let instr = from_earlier(alloc, earlier, instr)?;
        times.note_instr(&instr, made.len() + 1)?;
        made.push(instr)?;
    }
    Ok(Seq::from_vec(made))
}

/// The function in which each integer operator that repeats an earlier one of its straight run, whose
/// operands and result still hold what they held then, is a move from that one's result.
///
/// Registers are taken by number, so the function must be well-formed. The time is that of a few look-ups
/// by number for each register, and in a map for each operator; memory grows as the greatest number does.
/// The only error is want of memory.
pub fn cse(alloc: Global, mach: Mach) -> Result<Mach, AllocError>
    requires formed { WellFormed mach }
    ensures { IfOk result (λ after. IsRepeated mach after) }
{
    let Mach {
        name,
        params,
        result,
        labels,
        colours,
        code,
    } = mach;
    let code = without_repeats(alloc, code)?;
    Ok(Mach {
        name,
        params,
        result,
        labels,
        colours,
        code,
    })
}
