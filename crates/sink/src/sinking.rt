//! Sinking, whole.
ghost use Rattle.std.specs.Prelude.{◌≡◌, IfOk};
ghost use Rattle.mach_ir.specs.Formed.{WellFormed};
ghost use Rattle.mach_ir.specs.Sizes.{IsCountable};
ghost use Rattle.sink_rules.specs.Chosen.{IsSunk};
ghost use Rattle.sink.specs.Chosen.{has_call, AreMoves};

use crate::chosen::{Move, choose, is_call};
use crate::mixed::mixed_reads;
use crate::moves::move_code;
use crate::registers::registers_read;
use crate::sights::sights;
use crate::solved::solve;
use liveness::{LiveFlow, live_flow};
use mach_ir::{Instr, Mach};
use std::alloc::{AllocError, Global};

/// Whether the code has a call that returns.
fn has_call(code: &[Instr]) -> bool
    ensures { result ≡ has_call code.now }
{
    for instr in code {
        if is_call(&instr.op) {
            return true;
        }
    }
    false
}

/// The moves of a function, by rising numbers of their registers. With no call there is none.
fn moves_of(alloc: Global, mach: &Mach) -> Result<Vec<Move>, AllocError>
    requires formed { WellFormed mach.now }
    requires countable { IsCountable mach.now }
    ensures { IfOk result (λ moves. AreMoves mach.now moves.items) }
{
    let code = mach.code.as_slice();
    if !has_call(code) {
        return Ok(Vec::new(alloc));
    }
    let LiveFlow { flow, live } = live_flow(alloc, mach)?;
    let bound = flow.bound;
    let solved = solve(alloc, mach, &live, flow)?;
    let sights = sights(alloc, &solved.fresh, &solved.graph)?;
    let registers = registers_read(alloc, code, bound)?;
    let mixed = mixed_reads(alloc, code, &solved.fresh, &solved.stale, bound)?;
    let moves = choose(alloc, code, &solved.stale, &mixed, &registers, &sights)?;
    Ok(moves)
}

/// The function in which registers are moved to themselves before calls: each open one that lives over a
/// call, surely was written since the last call or entry of a handler there, may have been written since then
/// before no other that it lives over, and is read nowhere where it both may and may not have been. It is
/// moved at the begin of the straight run to the call, where no instruction of that run writes it.
///
/// A function with no call is handed back as it is, and so is one in which no register is moved. Else the
/// flow graph of the function is made once, and what is live, what is stale and what is fresh are solved
/// over it. The time is that of a sweep over the function for each depth of its loops and two more, three
/// times, and for each of these registers that of the way back from the call to the begin of its run. The
/// only error is want of memory.
pub fn sink(alloc: Global, mach: Mach) -> Result<Mach, AllocError>
    requires formed { WellFormed mach }
    requires countable { IsCountable mach }
    ensures { IfOk result (IsSunk mach) }
{
    let moves = moves_of(alloc, &mach)?;
    if moves.is_empty() {
        return Ok(mach);
    }
    let Mach {
        name,
        params,
        result,
        labels,
        colours,
        code,
    } = mach;
    let code = move_code(alloc, &moves, code)?;
    Ok(Mach {
        name,
        params,
        result,
        labels,
        colours,
        code,
    })
}
