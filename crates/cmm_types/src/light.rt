//! The operators of light expressions, whose evaluation may wait until the operation that takes them.
ghost use Rattle.std.specs.Prelude.{◌≡◌};
ghost use Rattle.cmm_types.specs.Light.{is_light_operator, makes_address};

use bs_words::IntOp;

/// Whether an operator over two light expressions is one.
pub fn is_light_operator(op: IntOp) -> bool
    ensures { result ≡ is_light_operator op }
{
    match op {
        IntOp::Add
        | IntOp::Sub
        | IntOp::Mul
        | IntOp::And
        | IntOp::Or
        | IntOp::Xor
        | IntOp::Shl
        | IntOp::Shr
        | IntOp::Sar
        | IntOp::AddV
        | IntOp::AddA => true,
        IntOp::Mulh | IntOp::Div | IntOp::Mod | IntOp::Cmp(_) | IntOp::CmpU(_) => false,
    }
}

/// Whether the operator makes an address inside a block.
pub fn makes_address(op: IntOp) -> bool
    ensures { result ≡ makes_address op }
{
    match op {
        IntOp::AddA => true,
        IntOp::Add
        | IntOp::Sub
        | IntOp::Mul
        | IntOp::Mulh
        | IntOp::Div
        | IntOp::Mod
        | IntOp::And
        | IntOp::Or
        | IntOp::Xor
        | IntOp::Shl
        | IntOp::Shr
        | IntOp::Sar
        | IntOp::Cmp(_)
        | IntOp::CmpU(_)
        | IntOp::AddV => false,
    }
}
