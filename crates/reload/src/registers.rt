//! Fresh registers for operands and results in slots, and the copies between them.
ghost use Rattle.std.specs.Prelude.{◌≡◌, ◌<◌, ◌++◌, IfOk};
ghost use Rattle.mach_ir.specs.Sizes.{number_limit};
ghost use Rattle.reload_rules.specs.Reloaded.{is_copy, reads_registers, writes_registers, is_in_slot, is_renewed};
ghost use Rattle.reload_rules.specs.Reloaded.{fresh_stand_in, number_past, renewed, reloads, spills, any_renewed};

use bs_words::Loc;
use mach_ir::{CopyKind, Instr, MachOp, Mark, Op, Pure, Reg};
use std::alloc::{AllocError, Global};

/// Whether the operation is a move, a spill or a reload.
fn is_copy(op: &Op) -> bool
    ensures { result ≡ is_copy op.now }
{
    match op {
        Op::Pure(Pure::Copy(_)) => true,
        Op::Pure(Pure::Constant(_)) => false,
        Op::Pure(Pure::Symbol(_)) => false,
        Op::Pure(Pure::Operator(_, _)) => false,
        Op::Access(_) => false,
        Op::Calling(_) => false,
        Op::Leaving(_) => false,
    }
}

/// Whether the operands may not be in slots.
pub(crate) fn reads_registers(op: &MachOp) -> bool
    ensures { result ≡ reads_registers op.now }
{
    match op {
        MachOp::Op(op) => !is_copy(op),
        MachOp::Mark(Mark::If { .. }) => true,
        MachOp::Mark(Mark::Switch(_)) => true,
        MachOp::Mark(Mark::Exit { .. }) => false,
        MachOp::Mark(Mark::Else { .. }) => false,
        MachOp::Mark(Mark::Case { .. }) => false,
        MachOp::Mark(Mark::Catch) => false,
        MachOp::Mark(Mark::With { .. }) => false,
        MachOp::Mark(Mark::Try { .. }) => false,
        MachOp::Mark(Mark::Leave { .. }) => false,
        MachOp::Mark(Mark::Handler { .. }) => false,
        MachOp::Mark(Mark::End { .. }) => false,
    }
}

/// Whether the results may not be in slots.
pub(crate) fn writes_registers(op: &MachOp) -> bool
    ensures { result ≡ writes_registers op.now }
{
    match op {
        MachOp::Op(op) => !is_copy(op),
        MachOp::Mark(Mark::Handler { .. }) => true,
        MachOp::Mark(Mark::If { .. }) => false,
        MachOp::Mark(Mark::Switch(_)) => false,
        MachOp::Mark(Mark::Exit { .. }) => false,
        MachOp::Mark(Mark::Else { .. }) => false,
        MachOp::Mark(Mark::Case { .. }) => false,
        MachOp::Mark(Mark::Catch) => false,
        MachOp::Mark(Mark::With { .. }) => false,
        MachOp::Mark(Mark::Try { .. }) => false,
        MachOp::Mark(Mark::Leave { .. }) => false,
        MachOp::Mark(Mark::End { .. }) => false,
    }
}

fn is_in_slot(loc: Loc) -> bool
    ensures { result ≡ is_in_slot loc }
{
    match loc {
        Loc::Slot(_) => true,
        Loc::Machine(_) => false,
        Loc::Unset => false,
    }
}

/// Whether there has to be another register for this one.
fn is_renewed(registers: bool, reg: Reg) -> bool
    ensures { result ≡ is_renewed registers reg }
{
    if registers {
        is_in_slot(reg.loc)
    } else {
        false
    }
}

/// Whether there has to be one for any of these.
pub(crate) fn any_renewed(registers: bool, regs: &[Reg]) -> bool
    ensures { result ≡ any_renewed registers regs.now }
{
    for reg in regs {
        if is_renewed(registers, *reg) {
            return true;
        }
    }
    false
}

fn fresh(number: u32, reg: Reg) -> Reg
    ensures { result ≡ fresh_stand_in number reg }
{
    Reg {
        number,
        loc: Loc::Unset,
        ..reg
    }
}

/// The next number, past those of the fresh registers for these.
pub(crate) fn number_past(registers: bool, from: u32, regs: &[Reg]) -> u32
    requires room { number_past registers from regs.now < number_limit }
    ensures { result ≡ number_past registers from regs.now }
{
    let mut number = from;
    for reg in regs {
        if is_renewed(registers, *reg) {
            number += 1;
        }
    }
    number
}

/// These registers, with a fresh one for each that needs it.
pub(crate) fn renewed(
    alloc: Global,
    registers: bool,
    from: u32,
    regs: &[Reg],
) -> Result<Vec<Reg>, AllocError>
    requires room { number_past registers from regs.now < number_limit }
    ensures { IfOk result (λ made. made.items ≡ renewed registers from regs.now) }
{
    let mut made = Vec::with_capacity(alloc, regs.len())?;
    let mut number = from;
    for reg in regs {
        if is_renewed(registers, *reg) {
            made.push(fresh(number, *reg))?;
            number += 1;
        } else {
            made.push(*reg)?;
        }
    }
    Ok(made)
}

/// Puts the reloads of these operands after the code.
pub(crate) fn push_reloads(
    alloc: Global,
    registers: bool,
    from: u32,
    regs: &[Reg],
    code: &mut Vec<Instr>,
) -> Result<(), AllocError>
    requires room { number_past registers from regs.now < number_limit }
    ensures { IfOk result (λ _.
        code.new.items ≡ code.old.items ++ reloads registers from regs.now) }
{
    let mut number = from;
    for reg in regs {
        if is_renewed(registers, *reg) {
            code.push(Instr::copy(alloc, CopyKind::Reload, *reg, fresh(number, *reg))?)?;
            number += 1;
        }
    }
    Ok(())
}

/// Puts the spills of these results after the code.
pub(crate) fn push_spills(
    alloc: Global,
    registers: bool,
    from: u32,
    regs: &[Reg],
    code: &mut Vec<Instr>,
) -> Result<(), AllocError>
    requires room { number_past registers from regs.now < number_limit }
    ensures { IfOk result (λ _. code.new.items ≡ code.old.items ++ spills registers from regs.now) }
{
    let mut number = from;
    for reg in regs {
        if is_renewed(registers, *reg) {
            code.push(Instr::copy(alloc, CopyKind::Spill, fresh(number, *reg), *reg)?)?;
            number += 1;
        }
    }
    Ok(())
}
