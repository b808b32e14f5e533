//! Forms that are checked alike.
ghost use Rattle.std.specs.Prelude.{◌≡◌};
ghost use Rattle.cmm_types.specs.Groups.{group_of};

use cmm_tree::Form;

/// Forms that are checked alike.
#[derive(Clone, Copy)]
pub enum FormGroup {
    /// No part.
    Leaf,
    /// One part, whose value is taken.
    Unary,
    /// Two parts, whose values are taken.
    Binary,
    /// A row of parts.
    Row,
    /// A call, with a row of arguments.
    Call,
    /// A choice between parts.
    Branch,
    /// Names or labels are visible in a part.
    Scope,
}

/// The rule by which a form is typed, for forms that share one.
pub fn group_of_form(form: &Form) -> FormGroup
    ensures { result ≡ group_of form.now }
{
    match form {
        Form::Integer(_) | Form::Pointer(_) | Form::Symbol(_) => FormGroup::Leaf,
        Form::Name(_) | Form::Nothing => FormGroup::Leaf,
        Form::Assign { .. } | Form::Load(_, _) | Form::Raise(_) => FormGroup::Unary,
        Form::Operator(_, _, _) | Form::Store(_, _, _) => FormGroup::Binary,
        Form::Checkbound(_, _) => FormGroup::Binary,
        Form::Float { .. } | Form::Alloc { .. } => FormGroup::Row,
        Form::Seq(_) | Form::Exit { .. } => FormGroup::Row,
        Form::App { .. } | Form::Extcall { .. } => FormGroup::Call,
        Form::If(_, _, _) | Form::Switch { .. } => FormGroup::Branch,
        Form::Let(_, _) | Form::Catch(_, _) | Form::Try { .. } => FormGroup::Scope,
    }
}
