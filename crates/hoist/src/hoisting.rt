//! Hoisting, whole.
ghost use Rattle.std.specs.Prelude.{◌≡◌, ◌∷◌, ◌++◌, [], cond, length, IfOk};
ghost use Rattle.mach_ir.specs.Formed.{WellFormed};
ghost use Rattle.mach_ir.specs.Walks.{IsRegister};
ghost use Rattle.mach_ir.specs.declared.reg.Reg.{Reg};
ghost use Rattle.mach_laws.specs.Expand.{expand};
ghost use Rattle.hoist_rules.specs.Hoisted.{hoisted_instruction};
ghost use Rattle.hoist_rules.specs.Chosen.{HasConstantsFirst};
ghost use Rattle.hoist.specs.Loops.{flag_at};
ghost use Rattle.hoist.specs.Moves.{moves_by, left};

use crate::choosing::{chosen, none_moves};
use mach_ir::{Instr, Mach, Seq};
use std::alloc::{AllocError, Global};

/// Whether the instruction at the place moves.
fn moves_at(flags: &[bool], place: usize) -> bool
    ensures { result ≡ flag_at flags.now place }
{
    match flags.get(place) {
        None => false,
        Some(moves) => *moves,
    }
}

/// Adds the instruction to those that move, or to the others.
fn put(
    first: &mut Vec<Instr>,
    others: &mut Vec<Instr>,
    moves: bool,
    instr: Instr,
) -> Result<(), AllocError>
    ensures first { IfOk result (λ _.
        first.new.items ≡ first.old.items ++ cond moves (instr ∷ []) []) }
    ensures others { IfOk result (λ _.
        others.new.items ≡ others.old.items ++ cond moves [] (instr ∷ [])) }
{
    if moves {
        first.push(instr)?;
    } else {
        others.push(instr)?;
    }
    Ok(())
}

/// The instructions that move, and then the others.
fn moved_first(alloc: Global, flags: &[bool], code: Seq<Instr>) -> Result<Seq<Instr>, AllocError>
    ensures { IfOk result (λ made. made
        ≡ expand (hoisted_instruction (moves_by flags.now (length code))) code
        ++ expand (left (moves_by flags.now (length code))) code) }
{
    let count = code.len();
    let mut first = Vec::with_capacity(alloc, count)?;
    let mut others = Vec::with_capacity(alloc, count)?;
    let mut place = 0;
    for instr in code.into_vec() {
        let moves = moves_at(flags, place);
        put(&mut first, &mut others, moves, instr)?;
        place += 1;
    }
    first.append(&mut others)?;
    Ok(Seq::from_vec(first))
}

/// The function in which wide constants of loops before the first call are made at the entry, in their
/// order.
///
/// A constant is wide that does not fit the twelve bits of an immediate: most take two instructions of
/// the machine or more. It moves where it is an int, or an odd val, in an open register that nothing else
/// writes; and where it is made in a loop, and each loop round it ends before the first call or entry of a
/// handler, so that it lives over none that it did not live over before. Where nothing moves the function
/// is handed back as it is.
///
/// The time is linear in the function. The only error is want of memory.
pub fn hoist(alloc: Global, mach: Mach) -> Result<Mach, AllocError>
    requires formed { WellFormed mach }
    requires origins { (r : Reg) → IsRegister mach r → r.origin ≡ r.number }
    ensures { IfOk result (HasConstantsFirst mach) }
{
    let flags = chosen(alloc, &mach)?;
    if none_moves(flags.as_slice()) {
        return Ok(mach);
    }
    let Mach {
        name,
        params,
        result,
        labels,
        colours,
        code,
    } = mach;
    let code = moved_first(alloc, flags.as_slice(), code)?;
    Ok(Mach {
        name,
        params,
        result,
        labels,
        colours,
        code,
    })
}
