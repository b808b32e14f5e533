//! All forms.
ghost use Rattle.std.specs.Prelude.{◌≡◌, ◌+◌, ◌≤◌, OnOk};
ghost use Rattle.cmm_tree.specs.View.{expr_view};
ghost use Rattle.cmm_types.specs.Annotated.{IsAnnotated};
ghost use Rattle.cmm_types.specs.Groups.{group_of};
ghost use Rattle.cmm_types.specs.declared.group.FormGroup.TheVariants.{Call};
ghost use Rattle.selection_operands.specs.Below.{selected_code, MayCall, SelectsExpression};
ghost use Rattle.selection_scope.specs.Room.{HasExpressionRoom, most_tries};
ghost use Rattle.selection_scope.specs.Scoping.{scoped_names};

use cmm_tree::{Expr, Form};
use selection_code::backwards::Backwards;
use selection_control::choices::{if_else, operator, seq, switch};
use selection_control::scoping::{assign, catch, let_in, try_with};
use selection_operands::leaving::{Outside, app, exit, extcall, raise};
use selection_operands::memory::{alloc, checkbound, load, store};
use selection_operands::operands::Below;
use selection_scope::place::{Node, Place};
use selection_scope::scope::Scope;
use std::alloc::AllocError;

/// A call, of a function of the text or of what lies outside it.
fn call_form<F: Fn(&mut Scope, &mut Backwards, Place, &Expr) -> Result<(), AllocError>>(
    below: &Below<'_, F>,
    scope: &mut Scope,
    code: &mut Backwards,
    place: Place,
    expr: &Expr,
) -> Result<(), AllocError>
    requires is_call { group_of expr.now.form ≡ Call }
    requires callable { MayCall (F.pre below.now.select.now) below.now.first }
    requires selects { SelectsExpression (F.post below.now.select.now) below.now.first }
    requires tries { most_tries scope.old.labels ≤ place.base }
    requires begins { below.now.first ≡ place.base + 1 }
    requires room { HasExpressionRoom place.base (expr_view expr.now) }
    requires typed { IsAnnotated (scoped_names scope.old) expr.now }
    ensures code { OnOk result (code.new ≡ selected_code scope.old place expr.now code.old) }
    ensures scope { OnOk result (scope.new ≡ scope.old) }
{
    let node = Node { ty: expr.ty, place };
    match &expr.form {
        Form::App {
            callee,
            arguments,
            result,
            ..
        } => app(
            below,
            scope,
            code,
            node,
            callee,
            arguments.as_slice(),
            *result,
        ),
        Form::Extcall {
            frame,
            name,
            arguments,
            result,
            ..
        } => {
            let outside = Outside {
                frame: *frame,
                name,
                result: *result,
            };
            extcall(below, scope, code, node, outside, arguments.as_slice())
        }
        Form::Integer(_) | Form::Pointer(_) | Form::Symbol(_) | Form::Name(_) => unreachable!(),
        Form::Nothing | Form::Float { .. } | Form::Let(_, _) => unreachable!(),
        Form::Assign { .. } | Form::Operator(_, _, _) | Form::Load(_, _) => unreachable!(),
        Form::Store(_, _, _) | Form::Alloc { .. } | Form::Checkbound(_, _) => unreachable!(),
        Form::Raise(_) | Form::Seq(_) | Form::If(_, _, _) => unreachable!(),
        Form::Switch { .. } | Form::Catch(_, _) | Form::Exit { .. } => unreachable!(),
        Form::Try { .. } => unreachable!(),
    }
}

/// An expression, by what it is.
fn form<F: Fn(&mut Scope, &mut Backwards, Place, &Expr) -> Result<(), AllocError>>(
    below: &Below<'_, F>,
    scope: &mut Scope,
    code: &mut Backwards,
    place: Place,
    expr: &Expr,
) -> Result<(), AllocError>
    requires callable { MayCall (F.pre below.now.select.now) below.now.first }
    requires selects { SelectsExpression (F.post below.now.select.now) below.now.first }
    requires tries { most_tries scope.old.labels ≤ place.base }
    requires begins { below.now.first ≡ place.base + 1 }
    requires room { HasExpressionRoom place.base (expr_view expr.now) }
    requires typed { IsAnnotated (scoped_names scope.old) expr.now }
    ensures code { OnOk result (code.new ≡ selected_code scope.old place expr.now code.old) }
    ensures scope { OnOk result (scope.new ≡ scope.old) }
{
    let node = Node { ty: expr.ty, place };
    match &expr.form {
        Form::Integer(word) | Form::Pointer(word) => code.constant(*word, node.dest()),
        Form::Symbol(name) => code.symbol(name, node.dest()),
        Form::Name(name) => code.move_from(scope.reg_of(name), node.dest()),
        Form::Nothing | Form::Float { .. } => Ok(()),
        Form::Let(bindings, body) => { let_in(below, scope, code, node, bindings.as_slice(), body) }
        Form::Assign { name, value, .. } => assign(below, scope, code, node, name, value),
        Form::Operator(op, left, right) => operator(below, scope, code, node, *op, left, right),
        Form::Load(chunk, address) => load(below, scope, code, node, *chunk, address),
        Form::Store(chunk, to, value) => store(below, scope, code, node, *chunk, to, value),
        Form::Alloc {
            header,
            operands,
            ..
        } => alloc(below, scope, code, node, *header, operands.as_slice()),
        Form::App { .. } | Form::Extcall { .. } => call_form(below, scope, code, place, expr),
        Form::Checkbound(bound, index) => checkbound(below, scope, code, node, bound, index),
        Form::Raise(value) => raise(below, scope, code, node, value),
        Form::Seq(elements) => seq(below, scope, code, node, elements.as_slice()),
        Form::If(condition, on_true, on_false) => {
            if_else(below, scope, code, node, condition, on_true, on_false)
        }
        Form::Switch {
            size,
            selector,
            cases,
            ..
        } => switch(below, scope, code, node, *size, selector, cases.as_slice()),
        Form::Catch(body, handlers) => catch(below, scope, code, node, body, handlers.as_slice()),
        Form::Exit {
            label,
            arguments,
            ..
        } => exit(below, scope, code, node, label, arguments.as_slice()),
        Form::Try {
            body,
            name,
            handler,
            ..
        } => try_with(below, scope, code, node, body, name, handler),
    }
}

/// Puts the code of an expression before what there is. The only error is want of memory.
#[cycle(expr)]
pub fn expr_at(
    scope: &mut Scope,
    code: &mut Backwards,
    place: Place,
    expr: &Expr,
) -> Result<(), AllocError>
    requires tries { most_tries scope.old.labels ≤ place.base }
    requires room { HasExpressionRoom place.base (expr_view expr.now) }
    requires typed { IsAnnotated (scoped_names scope.old) expr.now }
    ensures code { OnOk result (code.new ≡ selected_code scope.old place expr.now code.old) }
    ensures scope { OnOk result (scope.new ≡ scope.old) }
{
    let first = place.base + 1;
    let select = |scope: &mut Scope, code: &mut Backwards, place: Place, expr: &Expr|
        requires tries { most_tries scope.old.labels ≤ first }
        requires begins { first ≤ place.base }
        requires room { HasExpressionRoom place.base (expr_view expr.now) }
        requires typed { IsAnnotated (scoped_names scope.old) expr.now }
        ensures code { OnOk result (code.new ≡ selected_code scope.old place expr.now code.old) }
        ensures scope { OnOk result (scope.new ≡ scope.old) }
    {
        // The clauses read it: a part's numbers begin later than its node's, and so selection ends.
        let _ = &first;
        expr_at(scope, code, place, expr)
    };
    let below = Below {
        first,
        select: &select,
    };
    form(&below, scope, code, place, expr)
}
