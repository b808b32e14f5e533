//! What a line of a run does to memory, and what it weighs.
ghost use Rattle.std.specs.Prelude.{◌≡◌};
ghost use Rattle.schedule_rules.specs.Straight.{is_plain, is_store, is_access, weight_of_operator, weight_of_pure, weight_of_line};

use bs_words::IntOp;
use lin_ir::LinOp;
use mach_ir::{Access, CopyKind, Op, Pure};

/// Whether it may stand within a straight run.
pub fn is_plain(op: &LinOp) -> bool
    ensures { result ≡ is_plain op.now }
{
    match op {
        LinOp::Op(Op::Pure(_)) => true,
        LinOp::Op(Op::Access(Access::Load { .. })) => true,
        LinOp::Op(Op::Access(Access::Store { .. })) => true,
        LinOp::Op(Op::Access(Access::Alloc(_))) => false,
        LinOp::Op(Op::Calling(_)) => false,
        LinOp::Op(Op::Leaving(_)) => false,
        LinOp::Flow(_) => false,
    }
}

/// Whether it stores.
pub fn is_store(op: &LinOp) -> bool
    ensures { result ≡ is_store op.now }
{
    match op {
        LinOp::Op(Op::Pure(_)) => false,
        LinOp::Op(Op::Access(Access::Load { .. })) => false,
        LinOp::Op(Op::Access(Access::Store { .. })) => true,
        LinOp::Op(Op::Access(Access::Alloc(_))) => false,
        LinOp::Op(Op::Calling(_)) => false,
        LinOp::Op(Op::Leaving(_)) => false,
        LinOp::Flow(_) => false,
    }
}

/// Whether it loads or stores. A slot is no memory.
pub fn is_access(op: &LinOp) -> bool
    ensures { result ≡ is_access op.now }
{
    match op {
        LinOp::Op(Op::Pure(_)) => false,
        LinOp::Op(Op::Access(Access::Load { .. })) => true,
        LinOp::Op(Op::Access(Access::Store { .. })) => true,
        LinOp::Op(Op::Access(Access::Alloc(_))) => false,
        LinOp::Op(Op::Calling(_)) => false,
        LinOp::Op(Op::Leaving(_)) => false,
        LinOp::Flow(_) => false,
    }
}

fn operator_weight(operator: IntOp) -> u32
    ensures { result ≡ weight_of_operator operator }
{
    match operator {
        IntOp::Mul => 4,
        IntOp::Mulh => 4,
        IntOp::Div => 4,
        IntOp::Mod => 4,
        IntOp::Add => 1,
        IntOp::Sub => 1,
        IntOp::And => 1,
        IntOp::Or => 1,
        IntOp::Xor => 1,
        IntOp::Shl => 1,
        IntOp::Shr => 1,
        IntOp::Sar => 1,
        IntOp::Cmp(_) => 1,
        IntOp::CmpU(_) => 1,
        IntOp::AddV => 1,
        IntOp::AddA => 1,
    }
}

fn pure_weight(pure: &Pure) -> u32
    ensures { result ≡ weight_of_pure pure.now }
{
    match pure {
        Pure::Copy(CopyKind::Reload) => 2,
        Pure::Copy(CopyKind::Move) => 1,
        Pure::Copy(CopyKind::Spill) => 1,
        Pure::Constant(_) => 1,
        Pure::Symbol(_) => 1,
        Pure::Operator(operator, _) => operator_weight(*operator),
    }
}

/// What it adds to the height of a line.
pub fn weight(op: &LinOp) -> u32
    ensures { result ≡ weight_of_line op.now }
{
    match op {
        LinOp::Op(Op::Pure(pure)) => pure_weight(pure),
        LinOp::Op(Op::Access(Access::Load { .. })) => 2,
        LinOp::Op(Op::Access(Access::Store { .. })) => 1,
        LinOp::Op(Op::Access(Access::Alloc(_))) => 1,
        LinOp::Op(Op::Calling(_)) => 1,
        LinOp::Op(Op::Leaving(_)) => 1,
        LinOp::Flow(_) => 1,
    }
}
