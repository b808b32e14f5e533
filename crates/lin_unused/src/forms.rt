//! What kind of line a line is.
ghost use Rattle.std.specs.Prelude.{◌≡◌, ◌↔◌, ℕ, All, Some, IfSome, IsTrue, []};
ghost use Rattle.bs_words.specs.declared.types.Loc.{Loc};
ghost use Rattle.lin_ir.specs.Formed.{IsSelfMove, bare_flow};
ghost use Rattle.lin_ir.specs.declared.lin.Spot.{Spot};
ghost use Rattle.lin_tidy_rules.specs.Leaving.{is_landing};
ghost use Rattle.lin_tidy_rules.specs.Turning.{goes_away};
ghost use Rattle.lin_unused.specs.Forms.{copies, IsOnePlace, MovesItself, IsNoSelfMove};

use bs_words::Loc;
use lin_ir::{Flow, LinOp, Line, Spot};
use mach_ir::{Label, Op, Pure};

/// Whether it is a label or the entry of a handler, where control lands.
pub fn is_landing(op: &LinOp) -> bool
    ensures { result ≡ is_landing op.now }
{
    match op {
        LinOp::Op(_) => false,
        LinOp::Flow(Flow::Label(_)) => true,
        LinOp::Flow(Flow::Jump(_)) => false,
        LinOp::Flow(Flow::Exit(_)) => false,
        LinOp::Flow(Flow::Branch { test: _, label: _ }) => false,
        LinOp::Flow(Flow::Switch(_)) => false,
        LinOp::Flow(Flow::PushTrap(_)) => false,
        LinOp::Flow(Flow::PopTrap) => false,
        LinOp::Flow(Flow::EnterTrap) => true,
    }
}

fn same_place(one: Loc, other: Loc) -> bool
    ensures { IsTrue result ↔ (one ≡ other) }
{
    match (one, other) {
        (Loc::Machine(first), Loc::Machine(second)) => first == second,
        (Loc::Slot(first), Loc::Slot(second)) => first == second,
        (Loc::Unset, Loc::Unset) => true,
        (Loc::Machine(_first), Loc::Slot(_second)) => false,
        (Loc::Machine(_first), Loc::Unset) => false,
        (Loc::Slot(_first), Loc::Machine(_second)) => false,
        (Loc::Slot(_first), Loc::Unset) => false,
        (Loc::Unset, Loc::Machine(_second)) => false,
        (Loc::Unset, Loc::Slot(_second)) => false,
    }
}

fn is_copy(op: &LinOp) -> bool
    ensures { result ≡ copies op.now }
{
    match op {
        LinOp::Op(Op::Pure(Pure::Copy(_kind))) => true,
        LinOp::Op(Op::Pure(Pure::Constant(_word))) => false,
        LinOp::Op(Op::Pure(Pure::Symbol(_name))) => false,
        LinOp::Op(Op::Pure(Pure::Operator(_operator, _right))) => false,
        LinOp::Op(Op::Access(_access)) => false,
        LinOp::Op(Op::Calling(_calling)) => false,
        LinOp::Op(Op::Leaving(_leaving)) => false,
        LinOp::Flow(_flow) => false,
    }
}

/// The location that is both the only operand and the only result.
fn one_place(args: &[Spot], results: &[Spot]) -> Option<Loc>
    ensures yes { IfSome result (λ l. IsOnePlace args.now results.now l) }
    ensures all { (l : Loc) → IsOnePlace args.now results.now l → result ≡ Some l }
{
    match (args, results) {
        ([from], [to]) => {
            if same_place(from.loc, to.loc) {
                Some(to.loc)
            } else {
                None
            }
        }
        _ => None,
    }
}

/// The location that the line moves to itself, if it does.
pub fn self_move(line: &Line) -> Option<Loc>
    ensures yes { IfSome result (λ l. MovesItself line.now l) }
    ensures all { (from to : Spot) → IsSelfMove line.now from to → result ≡ Some to.loc }
{
    if !is_copy(&line.op) {
        return None;
    }
    one_place(line.args.as_slice(), line.results.as_slice())
}

/// Whether the line moves no location to itself.
pub fn is_no_self_move(line: &Line) -> bool
    ensures { IsTrue result ↔ IsNoSelfMove line.now }
{
    match self_move(line) {
        None => true,
        Some(_loc) => false,
    }
}

/// Whether no line moves a location to itself.
pub fn no_self_moves(code: &[Line]) -> bool
    ensures { IsTrue result ↔ All IsNoSelfMove code.now }
{
    code.iter().all(|line| is_no_self_move(line))
}

fn has_no_spots(line: &Line) -> bool
    ensures { IsTrue result ↔ ((line.now.args ≡ []) × (line.now.results ≡ [])) }
{
    line.args.is_empty() && line.results.is_empty()
}

/// The label to which the line jumps, if it is a jump.
pub fn jump_of(line: &Line) -> Option<Label>
    ensures { (l : ℕ) → (result ≡ Some l) ↔ (line.now ≡ bare_flow (Flow.Jump l)) }
{
    if !has_no_spots(line) {
        return None;
    }
    match &line.op {
        LinOp::Flow(Flow::Jump(label)) => Some(*label),
        LinOp::Flow(Flow::Label(_)) => None,
        LinOp::Flow(Flow::Exit(_)) => None,
        LinOp::Flow(Flow::Branch { test: _, label: _ }) => None,
        LinOp::Flow(Flow::Switch(_)) => None,
        LinOp::Flow(Flow::PushTrap(_)) => None,
        LinOp::Flow(Flow::PopTrap) => None,
        LinOp::Flow(Flow::EnterTrap) => None,
        LinOp::Op(_) => None,
    }
}

/// The label to which the line exits, if it is an exit.
pub fn exit_of(line: &Line) -> Option<Label>
    ensures { (l : ℕ) → (result ≡ Some l) ↔ (line.now ≡ bare_flow (Flow.Exit l)) }
{
    if !has_no_spots(line) {
        return None;
    }
    match &line.op {
        LinOp::Flow(Flow::Exit(label)) => Some(*label),
        LinOp::Flow(Flow::Label(_)) => None,
        LinOp::Flow(Flow::Jump(_)) => None,
        LinOp::Flow(Flow::Branch { test: _, label: _ }) => None,
        LinOp::Flow(Flow::Switch(_)) => None,
        LinOp::Flow(Flow::PushTrap(_)) => None,
        LinOp::Flow(Flow::PopTrap) => None,
        LinOp::Flow(Flow::EnterTrap) => None,
        LinOp::Op(_) => None,
    }
}

/// Whether the line is a label.
pub fn is_label(line: &Line) -> bool
    ensures { IsTrue result ↔ ((l : ℕ) × (line.now ≡ bare_flow (Flow.Label l))) }
{
    if !has_no_spots(line) {
        return false;
    }
    match &line.op {
        LinOp::Flow(Flow::Label(_)) => true,
        LinOp::Flow(Flow::Jump(_)) => false,
        LinOp::Flow(Flow::Exit(_)) => false,
        LinOp::Flow(Flow::Branch { test: _, label: _ }) => false,
        LinOp::Flow(Flow::Switch(_)) => false,
        LinOp::Flow(Flow::PushTrap(_)) => false,
        LinOp::Flow(Flow::PopTrap) => false,
        LinOp::Flow(Flow::EnterTrap) => false,
        LinOp::Op(_) => false,
    }
}

/// Whether it is a jump or an exit: control does not come to what is right after it.
pub fn goes_away(op: &LinOp) -> bool
    ensures { result ≡ goes_away op.now }
{
    match op {
        LinOp::Op(_) => false,
        LinOp::Flow(Flow::Label(_)) => false,
        LinOp::Flow(Flow::Jump(_)) => true,
        LinOp::Flow(Flow::Exit(_)) => true,
        LinOp::Flow(Flow::Branch { test: _, label: _ }) => false,
        LinOp::Flow(Flow::Switch(_)) => false,
        LinOp::Flow(Flow::PushTrap(_)) => false,
        LinOp::Flow(Flow::PopTrap) => false,
        LinOp::Flow(Flow::EnterTrap) => false,
    }
}
