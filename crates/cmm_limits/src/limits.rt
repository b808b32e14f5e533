//! The limits on sizes in a file.
ghost use Rattle.std.specs.Prelude.{◌≡◌, map, None, slice_get, option_copied};
ghost use Rattle.cmm_tree.specs.View.{expr_view, index_view, params_view, function_view, item_view, file_view};
ghost use Rattle.bs_fault.specs.Reported.{noted_all, IsReported};
ghost use Rattle.cmm_limits.specs.Limits.{too_many, places, parameter_places, index_faults, size_faults, faults_in};
ghost use Rattle.cmm_limits.specs.Limits.{row_faults, binding_faults, case_faults, handler_faults, function_limit_faults};
ghost use Rattle.cmm_limits.specs.Limits.{item_limit_faults, limit_faults};
ghost use Rattle.cmm_tree.specs.Rows.{expressions_of, bindings_of, cases_of, handlers_of};

use bs_fault::{Fault, noted, noted_if};
use cmm_tree::{Binding, Case, CaseIndex, Expr, File, Form, Function, Handler, Item, Param};

/// The most bytes of a text.
pub const LONGEST_TEXT: u64 = 16_777_216;

/// The most parameters of a function, and arguments of a call.
const MOST_PARAMS: usize = 16;

/// The most tokens of a function, its parentheses counted.
const MOST_TOKENS: u32 = 32_000;

/// The most indexes of a switch.
const MOST_INDEXES: u64 = 4_096;

/// The item at an index, counted from 0, or none from the length on.
fn nth<T>(items: &[T], index: usize) -> Option<&T>
    ensures { option_copied result ≡ slice_get items.now index }
{
    items.get(index)
}

/// An argument more than a call may have.
fn in_arguments(arguments: &[Expr], found: Option<Fault>) -> Option<Fault>
    ensures { result ≡ noted_all (too_many (places (expressions_of arguments.now))) found }
{
    match nth(arguments, MOST_PARAMS) {
        Some(argument) => noted(Fault::TooManyParams { at: argument.at }, found),
        None => found,
    }
}

/// A parameter more than a function may have.
fn in_params(params: &[Param], found: Option<Fault>) -> Option<Fault>
    ensures { result ≡ noted_all (too_many (parameter_places (params_view params.now))) found }
{
    match nth(params, MOST_PARAMS) {
        Some(param) => noted(Fault::TooManyParams { at: param.at }, found),
        None => found,
    }
}

/// A number of indexes that no switch has.
fn in_size(size_at: u32, size: u64, found: Option<Fault>) -> Option<Fault>
    ensures { result ≡ noted_all (size_faults size_at size) found }
{
    let fits = size >= 1 && size <= MOST_INDEXES;
    noted_if(!fits, Fault::SwitchSize { at: size_at }, found)
}

/// Numbers of a case that are not below the number of indexes.
fn in_indexes(size: u64, indexes: &[CaseIndex], found: Option<Fault>) -> Option<Fault>
    ensures { result ≡ noted_all (index_faults size (map index_view indexes.now)) found }
{
    let mut reported = found;
    for index in indexes {
        let fits = index.index < size;
        reported = noted_if(!fits, Fault::SwitchSize { at: index.at }, reported);
    }
    reported
}

/// An expression, and all that is in it.
#[cycle(limits)]
fn in_expr(expr: &Expr, found: Option<Fault>) -> Option<Fault>
    ensures { result ≡ noted_all (faults_in (expr_view expr.now)) found }
{
    match &expr.form {
        Form::Integer(_) | Form::Pointer(_) | Form::Symbol(_) | Form::Name(_) | Form::Nothing =>
            found,
        Form::Float { operands, .. } => in_row(operands.as_slice(), found),
        Form::Let(bindings, body) => in_expr(body, in_bindings(bindings.as_slice(), found)),
        Form::Assign { value, .. } => in_expr(value, found),
        Form::Operator(_, left, right) => in_expr(right, in_expr(left, found)),
        Form::Load(_, address) => in_expr(address, found),
        Form::Store(_, address, value) => in_expr(value, in_expr(address, found)),
        Form::Alloc { operands, .. } => in_row(operands.as_slice(), found),
        Form::App {
            callee,
            arguments,
            ..
        } => {
            let reported = in_expr(callee, in_arguments(arguments.as_slice(), found));
            in_row(arguments.as_slice(), reported)
        }
        Form::Extcall { arguments, .. } => {
            let reported = in_arguments(arguments.as_slice(), found);
            in_row(arguments.as_slice(), reported)
        }
        Form::Checkbound(bound, index) => in_expr(index, in_expr(bound, found)),
        Form::Raise(value) => in_expr(value, found),
        Form::Seq(elements) => in_row(elements.as_slice(), found),
        Form::If(condition, on_true, on_false) => {
            in_expr(on_false, in_expr(on_true, in_expr(condition, found)))
        }
        Form::Switch {
            size_at,
            size,
            selector,
            cases,
        } => {
            let reported = in_expr(selector, in_size(*size_at, *size, found));
            in_cases(cases.as_slice(), *size, reported)
        }
        Form::Catch(body, handlers) => in_handlers(handlers.as_slice(), in_expr(body, found)),
        Form::Exit { arguments, .. } => in_row(arguments.as_slice(), found),
        Form::Try { body, handler, .. } => in_expr(handler, in_expr(body, found)),
    }
}

#[cycle(limits)]
fn in_row(exprs: &[Expr], found: Option<Fault>) -> Option<Fault>
    ensures { result ≡ noted_all (row_faults (expressions_of exprs.now)) found }
{
    let mut reported = found;
    for expr in exprs {
        reported = in_expr(expr, reported);
    }
    reported
}

#[cycle(limits)]
fn in_bindings(bindings: &[Binding], found: Option<Fault>) -> Option<Fault>
    ensures { result ≡ noted_all (binding_faults (bindings_of bindings.now)) found }
{
    let mut reported = found;
    for binding in bindings {
        reported = in_expr(&binding.value, reported);
    }
    reported
}

#[cycle(limits)]
fn in_cases(cases: &[Case], size: u64, found: Option<Fault>) -> Option<Fault>
    ensures { result ≡ noted_all (case_faults size (cases_of cases.now)) found }
{
    let mut reported = found;
    for case in cases {
        reported = in_expr(
            &case.body,
            in_indexes(size, case.indexes.as_slice(), reported),
        );
    }
    reported
}

#[cycle(limits)]
fn in_handlers(handlers: &[Handler], found: Option<Fault>) -> Option<Fault>
    ensures { result ≡ noted_all (handler_faults (handlers_of handlers.now)) found }
{
    let mut reported = found;
    for handler in handlers {
        reported = in_expr(&handler.body, reported);
    }
    reported
}

fn in_function(function: &Function, found: Option<Fault>) -> Option<Fault>
    ensures { result ≡ noted_all (function_limit_faults (function_view function.now)) found }
{
    let reported = in_params(function.params.as_slice(), found);
    let fits = function.tokens <= MOST_TOKENS;
    let reported = noted_if(!fits, Fault::FunctionTooLong { at: function.at }, reported);
    in_expr(&function.body, reported)
}

fn in_item(item: &Item, found: Option<Fault>) -> Option<Fault>
    ensures { result ≡ noted_all (item_limit_faults (item_view item.now)) found }
{
    match item {
        Item::Function(function) => in_function(function, found),
        Item::Data(_) => found,
    }
}

/// What is noted of all items of a file.
fn in_file(file: &File) -> Option<Fault>
    ensures { result ≡ noted_all (limit_faults (file_view file.now)) None }
{
    let mut reported = None;
    for item in file.items.as_slice() {
        reported = in_item(item, reported);
    }
    reported
}

/// The fault of a file that passes a limit, if it does: the leftmost; of two on one place the one of
/// the lower number.
///
/// A function has at most 16 parameters and at most 32,000 tokens, a call at most 16 arguments, a
/// switch 1 to 4,096 indexes, and each number of a case is below their number.
pub fn limit_fault(file: &File) -> Option<Fault>
    ensures found { result ≡ noted_all (limit_faults (file_view file.now)) None }
    ensures reported { IsReported (limit_faults (file_view file.now)) result }
{
    in_file(file)
}
