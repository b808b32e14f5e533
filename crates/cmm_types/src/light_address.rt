//! Light addresses, which are evaluated after the other operands of their operation.
ghost use Rattle.std.specs.Prelude.{◌≡◌, List};
ghost use Rattle.cmm_tree.specs.View.{expr_view};
ghost use Rattle.cmm_types.specs.Types.{Scoped};
ghost use Rattle.cmm_types.specs.Light.{is_immutable, is_light, is_light_address};

use crate::light::{is_light_operator, makes_address};
use bs_words::Name;
use cmm_tree::{Expr, Form};

/// The names in scope where an expression stands, however they are kept.
pub trait NamesInScope {
    // Whether these are the names, the innermost first.
    ghost HasNames: { Self → List Scoped → Type 0 };

    /// Whether the innermost binding of a name is not mutable.
    fn is_immutable(&self, name: &Name) -> bool
        ensures { (names : List Scoped) → HasNames self.now names →
            result ≡ is_immutable names name.now };
}

/// Whether the expression is a light address.
pub fn is_light_address<N: NamesInScope>(scope: &N, expr: &Expr) -> bool
    ensures { (names : List Scoped) → N.HasNames scope.now names →
        result ≡ is_light_address names (expr_view expr.now) }
{
    match &expr.form {
        Form::Operator(op, left, right) => {
            makes_address(*op) && (is_light(scope, left) && is_light(scope, right))
        }
        Form::Integer(_)
        | Form::Pointer(_)
        | Form::Symbol(_)
        | Form::Name(_)
        | Form::Nothing
        | Form::Float { .. }
        | Form::Let(_, _)
        | Form::Assign { .. }
        | Form::Load(_, _)
        | Form::Store(_, _, _)
        | Form::Alloc { .. }
        | Form::App { .. }
        | Form::Extcall { .. }
        | Form::Checkbound(_, _)
        | Form::Raise(_)
        | Form::Seq(_)
        | Form::If(_, _, _)
        | Form::Switch { .. }
        | Form::Catch(_, _)
        | Form::Exit { .. }
        | Form::Try { .. } => false,
    }
}

fn is_light<N: NamesInScope>(scope: &N, expr: &Expr) -> bool
    ensures { (names : List Scoped) → N.HasNames scope.now names →
        result ≡ is_light names (expr_view expr.now) }
{
    match &expr.form {
        Form::Integer(_) => true,
        Form::Symbol(_) => true,
        Form::Name(name) => scope.is_immutable(name),
        Form::Operator(op, left, right) => {
            is_light_operator(*op) && (is_light(scope, left) && is_light(scope, right))
        }
        Form::Pointer(_)
        | Form::Nothing
        | Form::Float { .. }
        | Form::Let(_, _)
        | Form::Assign { .. }
        | Form::Load(_, _)
        | Form::Store(_, _, _)
        | Form::Alloc { .. }
        | Form::App { .. }
        | Form::Extcall { .. }
        | Form::Checkbound(_, _)
        | Form::Raise(_)
        | Form::Seq(_)
        | Form::If(_, _, _)
        | Form::Switch { .. }
        | Form::Catch(_, _)
        | Form::Exit { .. }
        | Form::Try { .. } => false,
    }
}
