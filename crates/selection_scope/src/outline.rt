//! What of an expression decides how it is selected as a part of another one.
//!
//! It is one function, so that a new form has to be put there.
ghost use Rattle.std.specs.Prelude.{List};
ghost use Rattle.cmm_types.specs.Annotated.{IsAnnotated};
ghost use Rattle.cmm_types.specs.Types.{Scoped};
ghost use Rattle.selection_scope.specs.Outlines.{IsOutline, ArePartsAnnotated};

use bs_words::{IntOp, Name};
use cmm_tree::{Expr, Form};

/// The outline of an expression. An operand that has one of its own may need no register, may wait, or may be part of
/// the operation that takes it; another one is put into a register.
#[derive(Clone, Copy)]
pub enum Outline<'e> {
    /// An integer, as its word.
    Integer(u64),
    /// A symbol.
    Symbol(&'e Name),
    /// A name that is bound.
    Name(&'e Name),
    /// An operator on two operands, the left one first.
    Operator(IntOp, &'e Expr, &'e Expr),
    /// Any other form.
    Other,
}

/// The outline of an expression: the one place where selection tells its operands apart by their forms.
pub fn outline_of(expr: &Expr) -> Outline<'_>
    ensures outline { IsOutline result expr.now }
    ensures typed { (names : List Scoped) → IsAnnotated names expr.now →
        ArePartsAnnotated names result }
{
    match &expr.form {
        Form::Integer(word) => Outline::Integer(*word),
        Form::Symbol(name) => Outline::Symbol(name),
        Form::Name(name) => Outline::Name(name),
        Form::Operator(op, left, right) => Outline::Operator(*op, left, right),
        Form::Pointer(_)
        | Form::Nothing
        | Form::Float { .. }
        | Form::Let(_, _)
        | Form::Assign { .. }
        | Form::Load(_, _)
        | Form::Store(_, _, _)
        | Form::Alloc { .. }
        | Form::App { .. }
        | Form::Extcall { .. }
        | Form::Checkbound(_, _)
        | Form::Raise(_)
        | Form::Seq(_)
        | Form::If(_, _, _)
        | Form::Switch { .. }
        | Form::Catch(_, _)
        | Form::Exit { .. }
        | Form::Try { .. } => Outline::Other,
    }
}
