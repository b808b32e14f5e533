//! Where control goes from an instruction.
ghost use Rattle.std.specs.Prelude.{◌≡◌, ◌<◌, ◌^◌, ℕ, suc, map, IfOk};
ghost use Rattle.mach_ir.specs.Labels.{place_to};
ghost use Rattle.mach_ir.specs.Meaning.{tries_past};
ghost use Rattle.mach_ir.specs.Walks.{targets};
ghost use Rattle.mach_ir.specs.Walks as walks;
ghost use Rattle.liveness.specs.Labels.{instruction_of_label, handler_places_in};

use crate::backward::Backward;
use crate::labels::InstructionLabels;
use dataflow::{one_place, two_places};
use mach_ir::{Label, MachOp, Mark, places_after_op};
use std::alloc::{AllocError, Global};

/// Whether it leads to the innermost handler too: a call, a frame call, a raise or a bound test.
fn may_raise(op: &MachOp) -> bool
    ensures { result ≡ walks.may_raise op.now }
{
    match op {
        MachOp::Op(op) => op.may_raise(),
        MachOp::Mark(_) => false,
    }
}

fn places_after_mark(
    alloc: Global,
    labels: &InstructionLabels,
    mark: &Mark,
    place: u32,
) -> Result<Vec<u32>, AllocError>
    requires { suc place < 2 ^ 32 }
    ensures { IfOk result (λ places. places.items ≡
        map (place_to (instruction_of_label labels.now) place) (targets (MachOp.Mark mark.now))) }
{
    match mark {
        Mark::Exit { label, tries: _ } => one_place(alloc, labels.place_of(*label)),
        Mark::If { test: _, otherwise } => two_places(
            alloc,
            place + 1,
            labels.place_of(*otherwise),
        ),
        Mark::Else { label: _, end } => one_place(alloc, labels.place_of(*end)),
        Mark::Switch(among) => {
            let places = labels.places_of(alloc, among.as_slice())?;
            Ok(places)
        }
        Mark::Case {
            indexes: _,
            label: _,
            end,
        } => one_place(alloc, labels.place_of(*end)),
        Mark::Catch => one_place(alloc, place + 1),
        Mark::With { label: _, end } => one_place(alloc, labels.place_of(*end)),
        Mark::Try { handler: _ } => one_place(alloc, place + 1),
        Mark::Leave { handler: _, end } => one_place(alloc, labels.place_of(*end)),
        Mark::Handler { label: _ } => one_place(alloc, place + 1),
        Mark::End { label: _ } => one_place(alloc, place + 1),
    }
}

/// Where the instruction at the place goes on, conditions ignored.
/// The only error is want of memory.
pub fn places_after(
    alloc: Global,
    labels: &InstructionLabels,
    op: &MachOp,
    place: u32,
) -> Result<Vec<u32>, AllocError>
    requires { suc place < 2 ^ 32 }
    ensures { IfOk result (λ places.
        places.items ≡ map (place_to (instruction_of_label labels.now) place) (targets op.now)) }
{
    match op {
        MachOp::Op(op) => places_after_op(alloc, op, place),
        MachOp::Mark(mark) => places_after_mark(alloc, labels, mark, place),
    }
}

/// The place of the innermost handler, if the instruction may raise and there is one.
/// The only error is want of memory.
pub fn places_aside(
    alloc: Global,
    labels: &InstructionLabels,
    op: &MachOp,
    tries: &Backward<u32>,
) -> Result<Vec<u32>, AllocError>
    ensures { IfOk result (λ places.
        places.items ≡ handler_places_in labels.now (walks.may_raise op.now) tries.now) }
{
    if !may_raise(op) {
        return Ok(Vec::new(alloc));
    }
    match tries.first() {
        None => Ok(Vec::new(alloc)),
        Some(handler) => one_place(alloc, labels.handler_of(Label(handler))),
    }
}

/// The tries round an instruction, from those round the code after it: the innermost first, by the
/// labels of their handlers. The only error is want of memory.
pub fn pass_tries(tries: &mut Backward<u32>, op: &MachOp) -> Result<(), AllocError>
    ensures { IfOk result (λ _. tries.new ≡ tries_past op.now tries.old) }
{
    match op {
        MachOp::Op(_) => Ok(()),
        MachOp::Mark(mark) => pass_mark(tries, mark),
    }
}

fn pass_mark(tries: &mut Backward<u32>, mark: &Mark) -> Result<(), AllocError>
    ensures { IfOk result (λ _. tries.new ≡ tries_past (MachOp.Mark mark.now) tries.old) }
{
    match mark {
        Mark::Exit { label: _, tries: _ } => Ok(()),
        Mark::If {
            test: _,
            otherwise: _,
        } => Ok(()),
        Mark::Else { label: _, end: _ } => Ok(()),
        Mark::Switch(_) => Ok(()),
        Mark::Case {
            indexes: _,
            label: _,
            end: _,
        } => Ok(()),
        Mark::Catch => Ok(()),
        Mark::With { label: _, end: _ } => Ok(()),
        Mark::Try { handler: _ } => {
            tries.pop();
            Ok(())
        }
        Mark::Leave { handler, end: _ } => tries.push(handler.0),
        Mark::Handler { label: _ } => Ok(()),
        Mark::End { label: _ } => Ok(()),
    }
}
