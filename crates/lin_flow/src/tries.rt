//! The traps that are pushed, by the labels of their handlers, the innermost first.
ghost use Rattle.std.specs.Prelude.{◌≡◌, ◌∷◌, IfOk};
ghost use Rattle.mach_ir.specs.Acts.{drop_tries};
ghost use Rattle.lin_ir.specs.Walks.{tries_after};

use lin_ir::{Flow, LinOp};
use mach_ir::{Label, Seq};
use std::alloc::{AllocError, Global};

/// A copy of the labels of open tries. The only error is want of memory.
pub fn copy_of(alloc: Global, tries: &[u32]) -> Result<Seq<u32>, AllocError>
    ensures { IfOk result (λ copy. copy ≡ tries.now) }
{
    let mut copy = Vec::new(alloc);
    copy.extend_from_slice(tries)?;
    Ok(Seq::from_vec(copy))
}

fn with_trap(alloc: Global, label: Label, tries: &[u32]) -> Result<Seq<u32>, AllocError>
    ensures { IfOk result (λ more. more ≡ label ∷ tries.now) }
{
    let mut more = Vec::new(alloc);
    more.push(label.0)?;
    more.extend_from_slice(tries)?;
    Ok(Seq::from_vec(more))
}

fn without_trap(alloc: Global, tries: &[u32]) -> Result<Seq<u32>, AllocError>
    ensures { IfOk result (λ fewer. fewer ≡ drop_tries 1 tries.now) }
{
    match tries.split_first() {
        None => Ok(Seq::new(alloc)),
        Some((_, others)) => copy_of(alloc, others),
    }
}

fn after_flow(alloc: Global, flow: &Flow, tries: &[u32]) -> Result<Seq<u32>, AllocError>
    ensures { IfOk result (λ after. after ≡ tries_after (LinOp.Flow flow.now) tries.now) }
{
    match flow {
        Flow::Label(_) => copy_of(alloc, tries),
        Flow::Jump(_) => copy_of(alloc, tries),
        Flow::Exit(_) => copy_of(alloc, tries),
        Flow::Branch { test: _, label: _ } => copy_of(alloc, tries),
        Flow::Switch(_) => copy_of(alloc, tries),
        Flow::PushTrap(label) => with_trap(alloc, *label, tries),
        Flow::PopTrap => without_trap(alloc, tries),
        Flow::EnterTrap => copy_of(alloc, tries),
    }
}

/// The traps that are pushed where a line goes on. The only error is want of memory.
pub fn tries_after(alloc: Global, op: &LinOp, tries: &[u32]) -> Result<Seq<u32>, AllocError>
    ensures { IfOk result (λ after. after ≡ tries_after op.now tries.now) }
{
    match op {
        LinOp::Op(_) => copy_of(alloc, tries),
        LinOp::Flow(flow) => after_flow(alloc, flow, tries),
    }
}
