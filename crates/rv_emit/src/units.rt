//! Exits that have no words.
ghost use Rattle.std.specs.Prelude.{◌≡◌};
ghost use Rattle.rv_emit_rules.specs.Units.{is_branch, tests_first, falls_to, is_free_exit};

use lin_ir::{Flow, LinOp, Line};
use mach_ir::Label;

fn is_branch(op: &LinOp) -> bool
    ensures { result ≡ is_branch op.now }
{
    match op {
        LinOp::Op(_) => false,
        LinOp::Flow(Flow::Label(_)) => false,
        LinOp::Flow(Flow::Jump(_)) => false,
        LinOp::Flow(Flow::Exit(_)) => false,
        LinOp::Flow(Flow::Branch { test: _, label: _ }) => true,
        LinOp::Flow(Flow::Switch(_)) => false,
        LinOp::Flow(Flow::PushTrap(_)) => false,
        LinOp::Flow(Flow::PopTrap) => false,
        LinOp::Flow(Flow::EnterTrap) => false,
    }
}

/// Whether a branch comes first.
fn tests_first(code: &[Line]) -> bool
    ensures { result ≡ tests_first code.now }
{
    match code.first() {
        Some(line) => is_branch(&line.op),
        None => false,
    }
}

/// Whether the label comes next, but for other labels, and right after it a branch.
fn falls_to(label: Label, code: &[Line]) -> bool
    ensures { result ≡ falls_to label code.now }
{
    match code {
        [] => false,
        [line, next @ ..] => {
            if line.op.has_label(label) {
                return tests_first(next);
            }
            line.op.is_label() && falls_to(label, next)
        }
    }
}

/// Whether an operation, before this code, is an exit that needs no words: the branch to which it
/// goes comes next, and answers for its unit.
pub fn is_free(op: &LinOp, next: &[Line]) -> bool
    ensures { result ≡ is_free_exit op.now next.now }
{
    match op {
        LinOp::Op(_) => false,
        LinOp::Flow(Flow::Label(_)) => false,
        LinOp::Flow(Flow::Jump(_)) => false,
        LinOp::Flow(Flow::Exit(label)) => falls_to(*label, next),
        LinOp::Flow(Flow::Branch { test: _, label: _ }) => false,
        LinOp::Flow(Flow::Switch(_)) => false,
        LinOp::Flow(Flow::PushTrap(_)) => false,
        LinOp::Flow(Flow::PopTrap) => false,
        LinOp::Flow(Flow::EnterTrap) => false,
    }
}
