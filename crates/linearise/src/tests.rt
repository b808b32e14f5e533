//! Opposite tests: a branch goes where its test holds, and the true part of an `if` comes next.
ghost use Rattle.std.specs.Prelude.{◌≡◌};
ghost use Rattle.linearise_rules.specs.Lowered.{opposite_compare, opposite_test};

use bs_words::CmpOp;
use mach_ir::Test;

/// The comparison that holds where this one fails.
fn opposite_compare(compare: CmpOp) -> CmpOp
    ensures { result ≡ opposite_compare compare }
{
    match compare {
        CmpOp::Eq => CmpOp::Ne,
        CmpOp::Ne => CmpOp::Eq,
        CmpOp::Lt => CmpOp::Ge,
        CmpOp::Ge => CmpOp::Lt,
        CmpOp::Le => CmpOp::Gt,
        CmpOp::Gt => CmpOp::Le,
    }
}

/// The test that holds where this one fails, and fails where it holds.
pub fn opposite_test(test: Test) -> Test
    ensures { result ≡ opposite_test test }
{
    match test {
        Test::Holds => Test::Fails,
        Test::Fails => Test::Holds,
        Test::Signed(compare, right) => Test::Signed(opposite_compare(compare), right),
        Test::Unsigned(compare, right) => Test::Unsigned(opposite_compare(compare), right),
    }
}
