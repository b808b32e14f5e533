//! Which registers are moved to themselves, and where.
ghost use Rattle.std.specs.Prelude.{◌≡◌, length, IfOk};
ghost use Rattle.sink.specs.Chosen.{is_call, is_sure, move_at, all_moves};

use crate::graphs::is_held;
use crate::mixed::is_in;
use crate::runs::run_start;
use crate::sights::Sight;
use bs_bits::Bits;
use dataflow::Rows;
use mach_ir::{Instr, MachOp, Reg};
use std::alloc::{AllocError, Global};

/// A register is moved to itself before the instruction at a place.
#[derive(Clone, Copy)]
pub struct Move {
    /// The register.
    pub reg: Reg,
    /// The number of instructions before that one.
    pub place: usize,
}

/// Whether it is a call that returns.
pub fn is_call(op: &MachOp) -> bool
    ensures { result ≡ is_call op.now }
{
    match op {
        MachOp::Op(_) => is_held(op),
        MachOp::Mark(_) => false,
    }
}

/// Whether the register is open, a call is at the place, the register is not stale there, and no read
/// finds it both fresh and stale.
fn is_sure(code: &[Instr], stale: &Rows, mixed: &Bits, reg: Reg, place: usize) -> bool
    ensures { result ≡ is_sure code.now stale.now.rows.items mixed.now reg place }
{
    let calls = match code.get(place) {
        None => false,
        Some(instr) => is_call(&instr.op),
    };
    reg.is_open() && calls && !stale.contains(place, reg.number) && !is_in(mixed, reg.number)
}

/// The move of the register before the straight run to the one place where it was seen, if it is sure
/// there and the run does not write it.
fn move_at(
    code: &[Instr],
    stale: &Rows,
    mixed: &Bits,
    reg: Option<Reg>,
    sight: Sight,
) -> Option<Move>
    ensures { result ≡ move_at code.now stale.now.rows.items mixed.now reg sight }
{
    let reg = reg?;
    match sight {
        Sight::Unseen => None,
        Sight::Once(place) => {
            if is_sure(code, stale, mixed, reg, place) {
                let place = run_start(code, place, reg.number)?;
                Some(Move { reg, place })
            } else {
                None
            }
        }
        Sight::Often => None,
    }
}

/// The moves of all numbers, by their order. The only error is want of memory.
pub fn choose(
    alloc: Global,
    code: &[Instr],
    stale: &Rows,
    mixed: &Bits,
    registers: &[Option<Reg>],
    sights: &[Sight],
) -> Result<Vec<Move>, AllocError>
    requires { length registers.now ≡ length sights.now }
    ensures { IfOk result (λ moves.
        moves.items ≡ all_moves code.now stale.now.rows.items mixed.now
        registers.now sights.now) }
{
    let mut moves = Vec::new(alloc);
    for number in 0..registers.len() {
        if let Some(found) = move_at(code, stale, mixed, registers[number], sights[number]) {
            moves.push(found)?;
        }
    }
    Ok(moves)
}
