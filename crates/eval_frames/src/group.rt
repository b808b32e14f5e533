//! What kinds of nodes there are, by what they do first.
ghost use Rattle.std.specs.Prelude.{◌≡◌};
ghost use Rattle.eval_frames.specs.Groups.{evaluation_group};

use cmm_tree::Form;

/// What a node does first.
#[derive(Clone, Copy, PartialEq, Eq)]
pub enum EvaluationGroup {
    /// It computes with floats, which no accepted file does.
    Float,
    /// It has no part.
    Leaf,
    /// It has one operand.
    One,
    /// It has two.
    Two,
    /// It has a row of operands.
    Row,
    /// It has elements, one after the other.
    Sequence,
    /// It enters a scope.
    Scope,
}

/// What a node of this form does first.
pub fn group_of(form: &Form) -> EvaluationGroup
    ensures { result ≡ evaluation_group form.now }
{
    match form {
        Form::Integer(_) => EvaluationGroup::Leaf,
        Form::Pointer(_) => EvaluationGroup::Leaf,
        Form::Symbol(_) => EvaluationGroup::Leaf,
        Form::Name(_) => EvaluationGroup::Leaf,
        Form::Nothing => EvaluationGroup::Leaf,
        Form::Float { .. } => EvaluationGroup::Float,
        Form::Let(_, _) => EvaluationGroup::Scope,
        Form::Assign { .. } => EvaluationGroup::One,
        Form::Operator(_, _, _) => EvaluationGroup::Two,
        Form::Load(_, _) => EvaluationGroup::One,
        Form::Store(_, _, _) => EvaluationGroup::Two,
        Form::Alloc { .. } => EvaluationGroup::Row,
        Form::App { .. } => EvaluationGroup::Row,
        Form::Extcall { .. } => EvaluationGroup::Row,
        Form::Checkbound(_, _) => EvaluationGroup::Two,
        Form::Raise(_) => EvaluationGroup::One,
        Form::Seq(_) => EvaluationGroup::Sequence,
        Form::If(_, _, _) => EvaluationGroup::One,
        Form::Switch { .. } => EvaluationGroup::One,
        Form::Catch(_, _) => EvaluationGroup::Scope,
        Form::Exit { .. } => EvaluationGroup::Row,
        Form::Try { .. } => EvaluationGroup::Scope,
    }
}
