//! Light addresses, as selection sees the names in scope.
ghost use Rattle.std.specs.Prelude.{◌≡◌};
ghost use Rattle.cmm_tree.specs.View.{expr_view};
ghost use Rattle.cmm_types.specs.Light.{is_light_address};
ghost use Rattle.cmm_meaning.specs.Evaluation.{is_left_first};
ghost use Rattle.selection_scope.specs.Scoping.{scoped_names};

use crate::scope::Scope;
use bs_words::Name;
use cmm_tree::Expr;
use cmm_types::NamesInScope;

impl NamesInScope for Scope {
    ghost HasNames = { λ scope names. scoped_names scope ≡ names };

    fn is_immutable(&self, name: &Name) -> bool {
        Scope::is_immutable(self, name)
    }
}

/// Whether the expression is a light address: it is selected after the other operands of its operation.
pub fn is_light_address(scope: &Scope, expr: &Expr) -> bool
    ensures { result ≡ is_light_address (scoped_names scope.now) (expr_view expr.now) }
{
    cmm_types::is_light_address(scope, expr)
}

/// Whether the right operand alone is a light address, so that the left one is selected first.
pub fn is_left_first(scope: &Scope, left: &Expr, right: &Expr) -> bool
    ensures { result ≡ is_left_first (scoped_names scope.now) (expr_view left.now)
        (expr_view right.now) }
{
    is_light_address(scope, right) && !is_light_address(scope, left)
}
