//! Light addresses, as an activation sees its names.
ghost use Rattle.std.specs.Prelude.{◌≡◌};
ghost use Rattle.cmm_tree.specs.View.{expr_view};
ghost use Rattle.cmm_types.specs.Light.{is_light_address};
ghost use Rattle.cmm_meaning.specs.State.{scope};
ghost use Rattle.cmm_meaning.specs.Evaluation.{is_left_first};
ghost use Rattle.eval_frames.specs.Views.{here_view};

use crate::here::Here;
use bs_words::Name;
use cmm_tree::Expr;
use cmm_types::NamesInScope;

impl NamesInScope for Here<'_> {
    ghost HasNames = { λ here names. scope (here_view here) ≡ names };

    fn is_immutable(&self, name: &Name) -> bool {
        Here::is_immutable(self, name)
    }
}

/// Whether the expression is a light address: it is evaluated after the other operands of its operation.
pub fn is_light_address(here: &Here<'_>, expr: &Expr) -> bool
    ensures { result ≡ is_light_address (scope (here_view here.now)) (expr_view expr.now) }
{
    cmm_types::is_light_address(here, expr)
}

/// Whether the right operand alone is a light address, so that the left one is evaluated first.
pub fn is_left_first(here: &Here<'_>, left: &Expr, right: &Expr) -> bool
    ensures { result ≡ is_left_first (scope (here_view here.now)) (expr_view left.now)
        (expr_view right.now) }
{
    is_light_address(here, right) && !is_light_address(here, left)
}
