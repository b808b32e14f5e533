//! Cases of a switch, and handlers of a catch.
ghost use Rattle.std.specs.Prelude.{◌≡◌, ◌&&◌, Bool, not, option_map, option_copied, map};
ghost use Rattle.cmm_tree.specs.View.{index_view, label_view};
ghost use Rattle.cmm_meaning.specs.Evaluation as evaluation;
ghost use Rattle.cmm_meaning.specs.Choices.{ready_for, case_for, is_named};
ghost use Rattle.cmm_tree.specs.Tree.{same_label, is_bare};
ghost use Rattle.eval_frames.specs.Filled.{case_ready, cases_ready, handler_ready, handlers_ready, ready_handlers};

use cmm_tree::{Case, Form, Handler, Label};

/// The last case that names the number, and else the first.
pub fn case_for(cases: &[Case], number: u64) -> Option<&Case>
    ensures { (s : evaluation.Surroundings) → (tail : Bool) →
        option_map (case_ready s tail) (option_copied result) ≡ case_for
        (cases_ready s tail cases.now) number }
{
    let mut found = cases.first();
    for case in cases {
        if is_named(case, number) {
            found = Some(case);
        }
    }
    found
}

fn is_named(case: &Case, number: u64) -> bool
    ensures { result ≡ is_named (map index_view case.now.indexes.items) number }
{
    for index in case.indexes.as_slice() {
        if index.index == number {
            return true;
        }
    }
    false
}

/// The handler of a label; where it was left from a handler of the same catch, the bare one is not
/// visible.
pub fn handler_for<'a>(within: bool, label: &Label, handlers: &'a [Handler]) -> Option<&'a Handler>
    ensures { (s : evaluation.Surroundings) → (tail : Bool) →
        option_map (handler_ready s tail) (option_copied result) ≡ ready_for within
        (label_view label.now) (handlers_ready s tail handlers.entry.now) }
{
    for handler in handlers {
        if takes(handler, within, label) {
            return Some(handler);
        }
    }
    None
}

/// Whether an exit with this label is one to the handler.
fn takes(handler: &Handler, within: bool, label: &Label) -> bool
    ensures { result ≡ (same_label (label_view label.now) (label_view handler.now.label) && not
        (is_bare (label_view label.now) && within)) }
{
    label.same(&handler.label) && is_visible(within, label)
}

fn is_visible(within: bool, label: &Label) -> bool
    ensures { result ≡ not (is_bare (label_view label.now) && within) }
{
    match label {
        Label::Bare => !within,
        Label::Named(_) | Label::Done | Label::Again => true,
    }
}

/// The handlers of a node, which has some where it is a catch.
pub fn handlers_of(form: &Form) -> &[Handler]
    ensures { (s : evaluation.Surroundings) → (tail : Bool) →
        ready_handlers s form.now tail ≡ handlers_ready s tail result.now }
{
    match form {
        Form::Catch(_, handlers) => handlers.as_slice(),
        Form::Integer(_)
        | Form::Pointer(_)
        | Form::Symbol(_)
        | Form::Name(_)
        | Form::Nothing
        | Form::Float { .. }
        | Form::Let(_, _)
        | Form::Assign { .. }
        | Form::Operator(_, _, _)
        | Form::Load(_, _)
        | Form::Store(_, _, _)
        | Form::Alloc { .. }
        | Form::App { .. }
        | Form::Extcall { .. }
        | Form::Checkbound(_, _)
        | Form::Raise(_)
        | Form::Seq(_)
        | Form::If(_, _, _)
        | Form::Switch { .. }
        | Form::Exit { .. }
        | Form::Try { .. } => &[],
    }
}
