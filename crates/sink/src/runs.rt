//! Straight runs: where one begins, and whether it writes a register.
ghost use Rattle.std.specs.Prelude.{◌≡◌, ◌≤◌, length};
ghost use Rattle.mach_ir.specs.Placed.{is_straight};
ghost use Rattle.sink.specs.Runs.{straight_run_begins, is_among_registers, run_start};

use mach_ir::{Instr, MachOp, Op, Reg};

fn op_is_straight(op: &Op) -> bool
    ensures { result ≡ is_straight (MachOp.Op op.now) }
{
    match op {
        Op::Pure(_) => true,
        Op::Access(_) => true,
        Op::Calling(_) => false,
        Op::Leaving(_) => false,
    }
}

fn is_straight(op: &MachOp) -> bool
    ensures { result ≡ is_straight op.now }
{
    match op {
        MachOp::Op(op) => op_is_straight(op),
        MachOp::Mark(_) => false,
    }
}

/// Whether no straight instruction is right before the place.
pub fn begins_at(code: &[Instr], place: usize) -> bool
    ensures { result ≡ straight_run_begins code.now place }
{
    if place == 0 {
        return true;
    }
    match code.get(place - 1) {
        None => true,
        Some(instr) => !is_straight(&instr.op),
    }
}

/// Whether a register of this number is one of these.
fn is_among(number: u32, regs: &[Reg]) -> bool
    ensures { result ≡ is_among_registers number regs.now }
{
    for reg in regs {
        if reg.number == number {
            return true;
        }
    }
    false
}

/// Where the straight run to the place begins, if no instruction of it writes the number.
pub fn run_start(code: &[Instr], end: usize, number: u32) -> Option<usize>
    requires { end ≤ length code.now }
    ensures { result ≡ run_start code.now number end }
{
    let mut place = end;
    while !begins_at(code, place) {
        place -= 1;
        if is_among(number, code[place].results.as_slice()) {
            return None;
        }
    }
    Some(place)
}
