//! Loops, by the text.
ghost use Rattle.std.specs.Prelude.{◌≡◌, ◌≤◌, ◌&&◌, ℕ, length, IfOk};
ghost use Rattle.hoist.specs.Loops.{exit_of, loop_end, end_noted, is_calm_wide, AreEnds, AreFlags, IsCalmWide};
ghost use Rattle.mach_ir.specs.NumberTables.{table_entry};

use crate::constants::makes_wide;
use mach_ir::{Instr, Label, MachOp, Mark, NumberTable};
use std::alloc::{AllocError, Global};

/// The label to which a mark exits.
fn mark_exit(mark: &Mark) -> Option<Label>
    ensures { result ≡ exit_of (MachOp.Mark mark.now) }
{
    match mark {
        Mark::Exit { label, tries: _ } => Some(*label),
        Mark::If {
            test: _,
            otherwise: _,
        } => None,
        Mark::Else { label: _, end: _ } => None,
        Mark::Switch(_) => None,
        Mark::Case {
            indexes: _,
            label: _,
            end: _,
        } => None,
        Mark::Catch => None,
        Mark::With { label: _, end: _ } => None,
        Mark::Try { handler: _ } => None,
        Mark::Leave { handler: _, end: _ } => None,
        Mark::Handler { label: _ } => None,
        Mark::End { label: _ } => None,
    }
}

fn exit_of(op: &MachOp) -> Option<Label>
    ensures { result ≡ exit_of op.now }
{
    match op {
        MachOp::Op(_) => None,
        MachOp::Mark(mark) => mark_exit(mark),
    }
}

/// Notes the exit, after which this place comes, if it is one.
fn note_exit(ends: &mut NumberTable, op: &MachOp, after: usize) -> Result<(), AllocError>
    ensures { IfOk result (λ _. (l : ℕ) →
        table_entry ends.new l ≡ end_noted (exit_of op.now) after (table_entry ends.old) l) }
{
    match exit_of(op) {
        None => Ok(()),
        Some(label) => ends.put(label.0, after),
    }
}

/// For each label the place after the last exit to it, or 0. The only error is want of memory.
pub fn last_exits(alloc: Global, code: &[Instr]) -> Result<NumberTable, AllocError>
    ensures { IfOk result (λ ends. AreEnds code.now (table_entry ends)) }
{
    let mut ends = NumberTable::new(alloc);
    for place in 0..code.len() {
        note_exit(&mut ends, &code[place].op, place + 1)?;
    }
    Ok(ends)
}

/// The place after the last exit to the label that is here, or 0.
fn end_of(ends: &NumberTable, op: &MachOp) -> usize
    ensures { result ≡ loop_end (table_entry ends.now) op.now }
{
    match op.own_label() {
        None => 0,
        Some(label) => ends.get(label.0),
    }
}

/// Whether it makes a wide constant at a place in a loop, where the loops round it end before the calls.
fn is_calm_wide(instr: &Instr, place: usize, reach: usize, calls: usize) -> bool
    ensures { result ≡ is_calm_wide instr.now place reach calls }
{
    place < reach && (reach <= calls && makes_wide(instr))
}

/// For each place before the first call whether a wide constant is made there, in a loop, and no loop
/// round it comes to the call. The only error is want of memory.
pub fn in_calm_loops(
    alloc: Global,
    code: &[Instr],
    ends: &NumberTable,
    calls: usize,
) -> Result<Vec<bool>, AllocError>
    requires ends { AreEnds code.now (table_entry ends.now) }
    requires within { calls ≤ length code.now }
    ensures { IfOk result (λ flags. AreFlags (IsCalmWide code.now calls) calls flags.items) }
{
    let mut flags = Vec::with_capacity(alloc, calls)?;
    let mut reach = 0;
    for place in 0..calls {
        let instr = &code[place];
        reach = reach.max(end_of(ends, &instr.op));
        flags.push(is_calm_wide(instr, place, reach, calls))?;
    }
    Ok(flags)
}
