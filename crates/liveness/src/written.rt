//! Which registers instructions write, by their numbers.
ghost use Rattle.std.specs.Prelude.{◌≡◌, ◌++◌, ◌↔◌, IsTrue, IfOk};
ghost use Rattle.bs_words.specs.Contents.{contents};
ghost use Rattle.mach_ir.specs.Meaning.{Nothing, is_temporary, same_colour, is_at_one_of, is_destroyed, destroyed_by, killed_among, registers_written};
ghost use Rattle.mach_laws.specs.Graph.{numbers_of_registers};

use bs_words::{List, Loc};
use mach_ir::{Instr, Mach, MachOp, Reg};
use rv_isa::Register;
use std::alloc::{AllocError, Global};

/// Whether a machine register is a0 to a7 or t3 to t6.
fn is_temporary(register: u8) -> bool
    ensures { result ≡ is_temporary register }
{
    (Register::A0 as u8 <= register && register <= Register::A7 as u8)
        || Register::T3 as u8 <= register
}

fn register_is_destroyed(op: &MachOp, register: u8) -> bool
    ensures { result ≡ is_destroyed (destroyed_by op.now) (Loc.Machine register) }
{
    if op.destroys_everything() {
        true
    } else if op.destroys_temporaries() {
        is_temporary(register)
    } else {
        false
    }
}

/// Whether the operation destroys what is at the place.
fn is_destroyed(op: &MachOp, place: Loc) -> bool
    ensures { result ≡ is_destroyed (destroyed_by op.now) place }
{
    match place {
        Loc::Unset => false,
        Loc::Machine(register) => register_is_destroyed(op, register),
        Loc::Slot(_) => false,
    }
}

fn same_colour(one: Loc, other: Loc) -> bool
    ensures { result ≡ same_colour one other }
{
    match (one, other) {
        (Loc::Machine(first), Loc::Machine(second)) => first == second,
        (Loc::Machine(_first), Loc::Slot(_second)) => false,
        (Loc::Machine(_first), Loc::Unset) => false,
        (Loc::Slot(_first), Loc::Machine(_second)) => false,
        (Loc::Slot(_first), Loc::Slot(_second)) => false,
        (Loc::Slot(_first), Loc::Unset) => false,
        (Loc::Unset, Loc::Machine(_second)) => false,
        (Loc::Unset, Loc::Slot(_second)) => false,
        (Loc::Unset, Loc::Unset) => false,
    }
}

fn is_at_one_of(place: Loc, regs: &[Reg]) -> bool
    ensures { result ≡ is_at_one_of place regs.now }
{
    for reg in regs {
        if same_colour(place, reg.loc) {
            return true;
        }
    }
    false
}

/// The numbers of registers, in their order. The only error is want of memory.
pub fn numbers_of(alloc: Global, regs: &[Reg]) -> Result<Vec<u32>, AllocError>
    ensures { IfOk result (λ found. found.items ≡ numbers_of_registers regs.now) }
{
    let mut found = Vec::with_capacity(alloc, regs.len())?;
    for reg in regs {
        found.push(reg.number)?;
    }
    Ok(found)
}

/// Whether it destroys nothing, as all but calls and the entries of handlers do.
fn destroys_nothing(op: &MachOp) -> bool
    ensures { IsTrue result ↔ (destroyed_by op.now ≡ Nothing) }
{
    if op.destroys_everything() {
        false
    } else {
        !op.destroys_temporaries()
    }
}

/// Adds the numbers of those that the operation destroys: among the registers that stand for the
/// colours, those where no result is.
fn push_killed(
    found: &mut Vec<u32>,
    colours: &[Reg],
    op: &MachOp,
    results: &[Reg],
) -> Result<(), AllocError>
    ensures { IfOk result (λ _.
        found.new.items
        ≡ found.old.items ++ numbers_of_registers (killed_among colours.now (destroyed_by op.now) results.now)) }
{
    if destroys_nothing(op) {
        return Ok(());
    }
    for colour in colours {
        let destroyed = is_destroyed(op, colour.loc);
        let taken = is_at_one_of(colour.loc, results);
        if destroyed && !taken {
            found.push(colour.number)?;
        }
    }
    Ok(())
}

/// The numbers of all registers that the instruction writes. The only error is want of memory.
pub fn numbers_written(alloc: Global, mach: &Mach, instr: &Instr) -> Result<List<u32>, AllocError>
    ensures { IfOk result (λ found. contents found ≡ numbers_of_registers (registers_written mach.now instr.now)) }
{
    let results = instr.results.as_slice();
    let mut found = numbers_of(alloc, results)?;
    push_killed(&mut found, mach.colours.as_slice(), &instr.op, results)?;
    Ok(List::from_vec(found))
}
