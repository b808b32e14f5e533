//! Which instructions move.
ghost use Rattle.std.specs.Prelude.{◌≡◌, ◌≤◌, ◌&&◌, length, IfOk};
ghost use Rattle.mach_ir.specs.Formed.{WellFormed};
ghost use Rattle.mach_ir.specs.Walks.{IsRegister};
ghost use Rattle.mach_ir.specs.declared.reg.Reg.{Reg};
ghost use Rattle.hoist_rules.specs.Chosen.{AreChosen};
ghost use Rattle.hoist.specs.Loops.{AreFlags};
ghost use Rattle.hoist.specs.Moves.{flag_stays, StaysAt, moves_by, none_moves};
ghost use Rattle.mach_ir.specs.NumberTables.{table_entry};
ghost use Rattle.hoist.specs.Written.{is_once};

use crate::calls::first_call;
use crate::constants::has_wide;
use crate::loops::{in_calm_loops, last_exits};
use crate::writes::{is_once, times_written};
use mach_ir::{Instr, Mach, NumberTable};
use std::alloc::{AllocError, Global};

/// Whether none of them moves.
pub fn none_moves(flags: &[bool]) -> bool
    ensures { result ≡ none_moves flags.now }
{
    flags.iter().all(|moves| !*moves)
}

/// Whether the flag of the instruction stays: nothing else writes its results.
fn stays(flag: bool, writes: &NumberTable, instr: &Instr) -> bool
    ensures { result ≡ flag_stays flag (table_entry writes.now) instr.now }
{
    flag && is_once(writes, instr)
}

/// The flags of those instructions whose results nothing else writes.
fn written_once(
    alloc: Global,
    flags: &[bool],
    code: &[Instr],
    writes: &NumberTable,
) -> Result<Vec<bool>, AllocError>
    requires { length flags.now ≤ length code.now }
    ensures { IfOk result (λ kept.
        AreFlags (StaysAt flags.now code.now (table_entry writes.now)) (length flags.now) kept.items) }
{
    let mut kept = Vec::with_capacity(alloc, flags.len())?;
    for place in 0..flags.len() {
        kept.push(stays(flags[place], writes, &code[place]))?;
    }
    Ok(kept)
}

/// For each place of a function whether the constant that is made there moves. None does from beyond the
/// end of these.
///
/// Where no wide constant is made before the first call it takes no memory.
/// The only error is want of memory.
pub fn chosen(alloc: Global, mach: &Mach) -> Result<Vec<bool>, AllocError>
    requires formed { WellFormed mach.now }
    requires origins { (r : Reg) → IsRegister mach.now r → r.origin ≡ r.number }
    ensures { IfOk result (λ flags.
        AreChosen mach.now (moves_by flags.items (length mach.now.code))) }
{
    let code = mach.code.as_slice();
    let calls = first_call(code);
    if !has_wide(&code[..calls]) {
        return Ok(Vec::new(alloc));
    }
    let ends = last_exits(alloc, code)?;
    let flags = in_calm_loops(alloc, code, &ends, calls)?;
    if none_moves(flags.as_slice()) {
        return Ok(flags);
    }
    let writes = times_written(alloc, mach)?;
    let kept = written_once(alloc, flags.as_slice(), code, &writes)?;
    Ok(kept)
}
