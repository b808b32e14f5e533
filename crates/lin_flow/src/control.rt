//! Where control goes from a line.
ghost use Rattle.std.specs.Prelude.{◌≡◌, ◌<◌, ◌^◌, ℕ, suc, map, IfOk};
ghost use Rattle.mach_ir.specs.Labels.{place_to};
ghost use Rattle.lin_ir.specs.Walks.{targets};
ghost use Rattle.lin_ir.specs.Walks as walks;
ghost use Rattle.lin_flow.specs.Labels.{line_of_label};

use crate::labels::LineLabels;
use dataflow::{one_place, two_places};
use lin_ir::{Flow, LinOp};
use mach_ir::places_after_op;
use std::alloc::{AllocError, Global};

/// Whether it leads to the innermost handler too: a call, a frame call, a raise or a bound test.
pub fn may_raise(op: &LinOp) -> bool
    ensures { result ≡ walks.may_raise op.now }
{
    match op {
        LinOp::Op(op) => op.may_raise(),
        LinOp::Flow(_) => false,
    }
}

fn places_after_flow(
    alloc: Global,
    labels: &LineLabels,
    flow: &Flow,
    place: u32,
) -> Result<Vec<u32>, AllocError>
    requires { suc place < 2 ^ 32 }
    ensures { IfOk result (λ places.
        places.items ≡ map (place_to (line_of_label labels.now) place) (targets (LinOp.Flow flow.now))) }
{
    match flow {
        Flow::Label(_) => one_place(alloc, place + 1),
        Flow::Jump(label) => one_place(alloc, labels.place_of(*label)),
        Flow::Exit(label) => one_place(alloc, labels.place_of(*label)),
        Flow::Branch { test: _, label } => { two_places(alloc, place + 1, labels.place_of(*label)) }
        Flow::Switch(among) => {
            let places = labels.places_of(alloc, among.as_slice())?;
            Ok(places)
        }
        Flow::PushTrap(_) => one_place(alloc, place + 1),
        Flow::PopTrap => one_place(alloc, place + 1),
        Flow::EnterTrap => one_place(alloc, place + 1),
    }
}

/// Where the line at the place goes on, conditions ignored. The only error is want of memory.
pub fn places_after(
    alloc: Global,
    labels: &LineLabels,
    op: &LinOp,
    place: u32,
) -> Result<Vec<u32>, AllocError>
    requires { suc place < 2 ^ 32 }
    ensures { IfOk result (λ places.
        places.items ≡ map (place_to (line_of_label labels.now) place) (targets op.now)) }
{
    match op {
        LinOp::Op(op) => places_after_op(alloc, op, place),
        LinOp::Flow(flow) => places_after_flow(alloc, labels, flow, place),
    }
}
