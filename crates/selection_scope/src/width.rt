//! How many numbers of registers and labels an expression takes.
ghost use Rattle.std.specs.Prelude.{◌≡◌, ◌+◌, ◌<◌};
ghost use Rattle.cmm_tree.specs.Rows.{expressions_of, bindings_of, cases_of, handlers_of};
ghost use Rattle.cmm_tree.specs.View.{expr_view};
ghost use Rattle.selection_rules.specs.Select.{width, width_row, width_bound, width_cases, width_handlers, width_labels};
ghost use Rattle.selection_scope.specs.Room.{most_numbers};
ghost use Rattle.selection_scope.specs.Widths.{capped};

use cmm_tree::{Binding, Case, Expr, Form, Handler};

/// A length as a number, or the greatest number where it passes that.
fn capped(len: usize) -> u32
    ensures { result ≡ capped len }
{
    if len < u32::MAX as usize {
        len as u32
    } else {
        u32::MAX
    }
}

/// The own numbers of a node, and one for each of its parts, after so many others.
fn with_own(so_far: u32, own: u32, parts: usize) -> u32
    ensures { result ≡ capped (so_far + (own + parts)) }
{
    so_far.saturating_add(own).saturating_add(capped(parts))
}

/// The numbers of an expression after so many others.
#[cycle(width)]
fn with_expr(so_far: u32, expr: &Expr) -> u32
    ensures { result ≡ capped (so_far + width (expr_view expr.now)) }
{
    // Many nodes take three numbers of their own.
    let three = so_far.saturating_add(3);
    match &expr.form {
        Form::Integer(_)
        | Form::Pointer(_)
        | Form::Symbol(_)
        | Form::Name(_)
        | Form::Nothing
        | Form::Float { .. } => so_far.saturating_add(1),
        Form::Let(bindings, body) => with_expr(
            with_bindings(so_far.saturating_add(1), bindings.as_slice()),
            body,
        ),
        Form::Assign { value, .. } => with_expr(so_far.saturating_add(2), value),
        Form::Operator(_, left, right) => with_expr(with_expr(three, left), right),
        Form::App {
            callee,
            arguments,
            ..
        } => {
            let own = with_own(so_far, 3, arguments.len());
            with_row(with_expr(own, callee), arguments.as_slice())
        }
        Form::Extcall { arguments, .. } => {
            let own = with_own(so_far, 2, arguments.len());
            with_row(own, arguments.as_slice())
        }
        Form::Seq(elements) => with_row(so_far.saturating_add(1), elements.as_slice()),
        Form::If(condition, on_true, on_false) => with_expr(
            with_expr(with_expr(so_far.saturating_add(4), condition), on_true),
            on_false,
        ),
        Form::Catch(body, handlers) => {
            let own = with_labels(so_far.saturating_add(2), handlers.as_slice());
            with_handlers(with_expr(own, body), handlers.as_slice())
        }
        Form::Exit { arguments, .. } => with_row(so_far.saturating_add(1), arguments.as_slice()),
        Form::Alloc { operands, .. } => with_row(three, operands.as_slice()),
        Form::Load(_, address) => with_expr(so_far.saturating_add(2), address),
        Form::Store(_, address, value) => with_expr(with_expr(three, address), value),
        Form::Checkbound(bound, index) => with_expr(with_expr(three, bound), index),
        Form::Raise(value) => with_expr(three, value),
        Form::Switch {
            selector,
            cases,
            ..
        } => {
            let own = with_own(so_far, 3, cases.len());
            with_cases(with_expr(own, selector), cases.as_slice())
        }
        Form::Try { body, handler, .. } => {
            with_expr(with_expr(so_far.saturating_add(5), body), handler)
        }
    }
}

#[cycle(width)]
fn with_row(so_far: u32, exprs: &[Expr]) -> u32
    ensures { result ≡ capped (so_far + width_row (expressions_of exprs.now)) }
{
    let mut total = so_far;
    for expr in exprs {
        total = with_expr(total.saturating_add(1), expr);
    }
    total
}

#[cycle(width)]
fn with_bindings(so_far: u32, bindings: &[Binding]) -> u32
    ensures { result ≡ capped (so_far + width_bound (bindings_of bindings.now)) }
{
    let mut total = so_far;
    for binding in bindings {
        total = with_expr(total.saturating_add(1), &binding.value);
    }
    total
}

#[cycle(width)]
fn with_cases(so_far: u32, cases: &[Case]) -> u32
    ensures { result ≡ capped (so_far + width_cases (cases_of cases.now)) }
{
    let mut total = so_far;
    for case in cases {
        total = with_expr(total, &case.body);
    }
    total
}

#[cycle(width)]
fn with_handlers(so_far: u32, handlers: &[Handler]) -> u32
    ensures { result ≡ capped (so_far + width_handlers (handlers_of handlers.now)) }
{
    let mut total = so_far;
    for handler in handlers {
        total = with_expr(total, &handler.body);
    }
    total
}

/// The numbers of the labels of handlers, and of their parameters, after so many others.
fn with_labels(so_far: u32, handlers: &[Handler]) -> u32
    ensures { result ≡ capped (so_far + width_labels (handlers_of handlers.now)) }
{
    let mut total = so_far;
    for handler in handlers {
        total = total
            .saturating_add(1)
            .saturating_add(capped(handler.params.len()));
    }
    total
}

/// The number after those of an expression, which begin with `base`.
pub fn behind(base: u32, expr: &Expr) -> u32
    requires { base + width (expr_view expr.now) < most_numbers }
    ensures { result ≡ base + width (expr_view expr.now) }
{
    with_expr(base, expr)
}

/// The number after those of a row of operands.
pub fn behind_row(base: u32, exprs: &[Expr]) -> u32
    requires { base + width_row (expressions_of exprs.now) < most_numbers }
    ensures { result ≡ base + width_row (expressions_of exprs.now) }
{
    with_row(base, exprs)
}

/// The number after those of bindings.
pub fn behind_bindings(base: u32, bindings: &[Binding]) -> u32
    requires { base + width_bound (bindings_of bindings.now) < most_numbers }
    ensures { result ≡ base + width_bound (bindings_of bindings.now) }
{
    with_bindings(base, bindings)
}

/// The number after those of cases.
pub fn behind_cases(base: u32, cases: &[Case]) -> u32
    requires { base + width_cases (cases_of cases.now) < most_numbers }
    ensures { result ≡ base + width_cases (cases_of cases.now) }
{
    with_cases(base, cases)
}

/// The number after those of handlers' bodies.
pub fn behind_handlers(base: u32, handlers: &[Handler]) -> u32
    requires { base + width_handlers (handlers_of handlers.now) < most_numbers }
    ensures { result ≡ base + width_handlers (handlers_of handlers.now) }
{
    with_handlers(base, handlers)
}

/// The number after those of the labels of handlers and of their parameters.
pub fn behind_labels(base: u32, handlers: &[Handler]) -> u32
    requires { base + width_labels (handlers_of handlers.now) < most_numbers }
    ensures { result ≡ base + width_labels (handlers_of handlers.now) }
{
    with_labels(base, handlers)
}

/// How many numbers an expression takes.
pub fn width_of(expr: &Expr) -> u32
    requires { width (expr_view expr.now) < most_numbers }
    ensures { result ≡ width (expr_view expr.now) }
{
    behind(0, expr)
}
