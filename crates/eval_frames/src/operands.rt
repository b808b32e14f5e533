//! The operands of a node.
ghost use Rattle.std.specs.Prelude.{◌≡◌, Bool, false, List, Option, if◌then◌else◌, option_copied};
ghost use Rattle.bs_words.specs.declared.values.Value.{Value};
ghost use Rattle.cmm_tree.specs.View.{expr_view};
ghost use Rattle.cmm_meaning.specs.State as state;
ghost use Rattle.cmm_meaning.specs.State.{scope};
ghost use Rattle.cmm_meaning.specs.Evaluation as evaluation;
ghost use Rattle.cmm_meaning.specs.Evaluation.{with_value, both, is_left_first};
ghost use Rattle.eval_frames.specs.Groups.{evaluation_group};
ghost use Rattle.eval_frames.specs.declared.group.EvaluationGroup.{EvaluationGroup};
ghost use Rattle.eval_frames.specs.Views.{here_view};
ghost use Rattle.eval_frames.specs.Held.{inside};
ghost use Rattle.eval_frames.specs.Filled.{evaluated_expression, taken_by, left_operand, right_of, joined_by, after_callee, after_waiting, operands_of};

use crate::here::Here;
use crate::light::is_light_address;
use cmm_tree::{Expr, Form};

/// The operand that is evaluated first.
pub fn earlier<'a>(left_first: bool, left: &'a Expr, right: &'a Expr) -> &'a Expr
    ensures { result.now ≡ (if left_first then left.now else right.now) }
{
    if left_first { left } else { right }
}

/// The operand of a node with one.
pub fn operand_of(form: &Form) -> &Expr
    requires { evaluation_group form.now ≡ EvaluationGroup.One }
    ensures { (s : evaluation.Surroundings) → (tail : Bool) → (h : state.Here) →
        (w : state.World) → inside s form.now tail h w ≡ with_value
        (evaluated_expression s result.now false h w) (λ v h w. taken_by s form.now tail v h w) }
{
    match form {
        Form::Assign { value, .. } => value,
        Form::Load(_, address) => address,
        Form::Raise(value) => value,
        Form::If(condition, _, _) => condition,
        Form::Switch { selector, .. } => selector,
        Form::Integer(_)
        | Form::Pointer(_)
        | Form::Symbol(_)
        | Form::Name(_)
        | Form::Nothing
        | Form::Float { .. }
        | Form::Let(_, _)
        | Form::Operator(_, _, _)
        | Form::Store(_, _, _)
        | Form::Alloc { .. }
        | Form::App { .. }
        | Form::Extcall { .. }
        | Form::Checkbound(_, _)
        | Form::Seq(_)
        | Form::Catch(_, _)
        | Form::Exit { .. }
        | Form::Try { .. } => unreachable!(),
    }
}

/// The operands of a node with two, the left one first.
pub fn both_operands(form: &Form) -> (&Expr, &Expr)
    requires { evaluation_group form.now ≡ EvaluationGroup.Two }
    ensures left { (s : evaluation.Surroundings) → (h : state.Here) → (w : state.World) →
        left_operand s form.now h w ≡ evaluated_expression s result.0.now false h w }
    ensures right { (s : evaluation.Surroundings) → (h : state.Here) → (w : state.World) →
        right_of s form.now h w ≡ evaluated_expression s result.1.now false h w }
    ensures whole { (s : evaluation.Surroundings) → (tail : Bool) → (h : state.Here) →
        (w : state.World) → inside s form.now tail h w ≡ both (is_left_first
        (scope h) (expr_view result.0.now) (expr_view result.1.now))
        (left_operand s form.now) (right_of s form.now) h w (λ a b h w. joined_by s form.now a b h w) }
{
    match form {
        Form::Operator(_, left, right) => (left, right),
        Form::Store(_, address, value) => (address, value),
        Form::Checkbound(bound, index) => (bound, index),
        Form::Integer(_)
        | Form::Pointer(_)
        | Form::Symbol(_)
        | Form::Name(_)
        | Form::Nothing
        | Form::Float { .. }
        | Form::Let(_, _)
        | Form::Assign { .. }
        | Form::Load(_, _)
        | Form::Alloc { .. }
        | Form::App { .. }
        | Form::Extcall { .. }
        | Form::Raise(_)
        | Form::Seq(_)
        | Form::If(_, _, _)
        | Form::Switch { .. }
        | Form::Catch(_, _)
        | Form::Exit { .. }
        | Form::Try { .. } => unreachable!(),
    }
}

/// The callee of a call, unless it waits.
pub fn prompt_callee<'a>(here: &Here<'_>, form: &'a Form) -> Option<&'a Expr>
    ensures { (s : evaluation.Surroundings) → (tail : Bool) → (before : List (Option Value)) →
        (w : state.World) → after_waiting s form.entry.now tail before
        (here_view here.now) w ≡ after_callee s form.entry.now tail
        (option_copied result) before (here_view here.now) w }
{
    match form {
        Form::App { callee, .. } => {
            if is_light_address(here, callee) {
                None
            } else {
                Some(callee)
            }
        }
        Form::Integer(_)
        | Form::Pointer(_)
        | Form::Symbol(_)
        | Form::Name(_)
        | Form::Nothing
        | Form::Float { .. }
        | Form::Let(_, _)
        | Form::Assign { .. }
        | Form::Operator(_, _, _)
        | Form::Load(_, _)
        | Form::Store(_, _, _)
        | Form::Alloc { .. }
        | Form::Extcall { .. }
        | Form::Checkbound(_, _)
        | Form::Raise(_)
        | Form::Seq(_)
        | Form::If(_, _, _)
        | Form::Switch { .. }
        | Form::Catch(_, _)
        | Form::Exit { .. }
        | Form::Try { .. } => None,
    }
}

/// The operands of a node with a row of them.
pub fn operands_of(form: &Form) -> &[Expr]
    ensures { result.now ≡ operands_of form.now }
{
    match form {
        Form::Alloc { operands, .. } => operands.as_slice(),
        Form::App { arguments, .. } => arguments.as_slice(),
        Form::Extcall { arguments, .. } => arguments.as_slice(),
        Form::Exit { arguments, .. } => arguments.as_slice(),
        Form::Integer(_)
        | Form::Pointer(_)
        | Form::Symbol(_)
        | Form::Name(_)
        | Form::Nothing
        | Form::Float { .. }
        | Form::Let(_, _)
        | Form::Assign { .. }
        | Form::Operator(_, _, _)
        | Form::Load(_, _)
        | Form::Store(_, _, _)
        | Form::Checkbound(_, _)
        | Form::Raise(_)
        | Form::Seq(_)
        | Form::If(_, _, _)
        | Form::Switch { .. }
        | Form::Catch(_, _)
        | Form::Try { .. } => &[],
    }
}
