//! Calls, exits and raises, with their operands.
//!
//! Where a row of registers is held, few calls can fail: a row, a scope and code are dropped at each `?`
//! after them, and each such exit is proved with all that is before it. So numbers are reckoned first, by
//! functions that answer a `Copy` struct, and what needs rows is a function over the code.
ghost use Rattle.std.specs.Prelude.{◌≡◌, ℕ, ◌+◌, ◌<◌, ◌≤◌, ◌∷◌, ◌&&◌, not, length, OnOk};
ghost use Rattle.cmm_tree.specs.Rows.{expressions_of};
ghost use Rattle.cmm_tree.specs.Tree.{App, Extcall, Exit, Raise};
ghost use Rattle.cmm_tree.specs.View.{expr_view, label_view};
ghost use Rattle.cmm_types.specs.Annotated.{IsAnnotated};
ghost use Rattle.cmm_types.specs.Lists.{AreAnnotated};
ghost use Rattle.cmm_types.specs.Types.{type_of};
ghost use Rattle.cmm_meaning.specs.Evaluation.{comps_of_arguments};
ghost use Rattle.selection_rules.specs.Instructions as emit;
ghost use Rattle.selection_rules.specs.Select.{called_symbol as symbol_in, call_of, exit_to_handler, visible_label, regs_of, result_seat};
ghost use Rattle.selection_operands.specs.Operands.{lacks};
ghost use Rattle.selection_operands.specs.Calls.{call_numbers, seated_code};
ghost use Rattle.selection_operands.specs.Below.{node_code, MayCall, SelectsExpression};
ghost use Rattle.selection_scope.specs.Room.{HasExpressionRoom, most_numbers, most_tries};
ghost use Rattle.selection_scope.specs.Scoping.{scoped_names};

use crate::operands::{Below, Operand, Timing, one, put_operand, put_row};
use bs_words::{Comp, Name, Ret};
use cmm_tree::{Expr, Label};
use selection_code::backwards::Backwards;
use selection_code::calls::{Call, symbol_of};
use selection_scope::light::is_light_address;
use selection_scope::place::{Node, Place, fresh, operand_at};
use selection_scope::row::Regs;
use selection_scope::scope::Scope;
use selection_scope::seats::{comps_of_arguments, regs_of, result_seat, seat, seats};
use selection_scope::width::behind;
use std::alloc::AllocError;

/// An external call, as the text has it.
#[derive(Clone, Copy)]
pub struct Outside<'e> {
    /// Whether it is a frame call: it may allocate, and may raise.
    pub frame: bool,
    /// The name of what is called.
    pub name: &'e Name,
    /// What it answers.
    pub result: Ret,
}

/// Whether a callee is put into its register before the operands that wait: it is no symbol, and does not wait either.
fn is_early(light: bool, callee: &Expr) -> bool
    ensures { result ≡ not light && lacks (symbol_in (expr_view callee.now)) }
{
    if light {
        return false;
    }
    match symbol_of(callee) {
        Some(_) => false,
        None => true,
    }
}

/// The numbers of a call: the first of the registers of its arguments, the first of their seats, the seat of what is
/// given, and the first after them.
#[derive(Clone, Copy)]
struct CallNumbers {
    row: u32,
    seated: u32,
    given: u32,
    base: u32,
}

/// The numbers of a call with so many arguments, from this one on.
fn call_numbers(row: u32, len: usize) -> CallNumbers
    requires { row + len + len < most_numbers }
    ensures { result ≡ call_numbers row len }
{
    let count = len as u32;
    let seated = row + count;
    let given = seated + count;
    CallNumbers {
        row,
        seated,
        given,
        base: given + 1,
    }
}

/// The call of a function whose operands are in their registers.
fn put_call(
    scope: &Scope,
    code: &mut Backwards,
    call: Call,
    callee: &Expr,
    numbers: CallNumbers,
    arguments: &[Expr],
) -> Result<(), AllocError>
    requires typed { AreAnnotated (scoped_names scope.now) arguments.now }
    requires row { numbers.row + length arguments.now < most_numbers }
    requires seats { numbers.seated + length arguments.now < most_numbers }
    ensures { OnOk result (code.new ≡ seated_code scope.now numbers (expressions_of arguments.now)
        (λ args. call_of call.tail call.valued call.written (symbol_in (expr_view
        callee.now)) call.register args call.given call.dest code.old)) }
{
    let regs = regs_of(scope, numbers.row, arguments)?;
    let args = seats(scope.alloc(), numbers.seated, &regs)?;
    code.call(call, callee, &args)?;
    code.moves_all(&regs, &args)
}

/// A call. A callee that is a light address waits as an operand does.
/// The only error is want of memory.
#[tactic(auto, using(crate::proofs::Rooms::row_wide, crate::proofs::Rooms::row_count))]
pub fn app<F: Fn(&mut Scope, &mut Backwards, Place, &Expr) -> Result<(), AllocError>>(
    below: &Below<'_, F>,
    scope: &mut Scope,
    code: &mut Backwards,
    node: Node,
    callee: &Expr,
    arguments: &[Expr],
    written: Ret,
) -> Result<(), AllocError>
    requires callable { MayCall (F.pre below.now.select.now) below.now.first }
    requires selects { SelectsExpression (F.post below.now.select.now) below.now.first }
    requires tries { most_tries scope.old.labels ≤ node.place.base }
    requires begins { below.now.first ≡ node.place.base + 1 }
    requires room { HasExpressionRoom node.place.base
        (App 0 (expr_view callee.now) (expressions_of arguments.now) written 0) }
    requires callee_typed { IsAnnotated (scoped_names scope.old) callee.now }
    requires typed { AreAnnotated (scoped_names scope.old) arguments.now }
    requires ty { (at result_at : ℕ) → node.ty ≡ type_of (scoped_names scope.old) (App at (expr_view
        callee.now) (expressions_of arguments.now) written result_at) }
    ensures code { OnOk result ((at result_at : ℕ) → code.new ≡ node_code scope.old node.place
        (App at (expr_view callee.now) (expressions_of arguments.now) written result_at) code.old) }
    ensures scope { OnOk result (scope.new ≡ scope.old) }
{
    let row = node.place.base + 2;
    let numbers = call_numbers(row, arguments.len());
    let base = numbers.base;
    let inner = behind(base, callee);
    let register = fresh(row - 1, callee.ty);
    let light = is_light_address(scope, callee);
    let call = Call {
        written,
        tail: node.place.tail,
        valued: node.is_valued(),
        register,
        given: numbers.given,
        dest: node.dest(),
    };
    put_call(scope, code, call, callee, numbers, arguments)?;
    let late = Operand {
        expr: callee,
        reg: register,
        base,
        needed: light,
    };
    put_operand(below, scope, code, &late)?;
    put_row(below, scope, code, Timing::Deferred, row, inner, arguments)?;
    let early = Operand {
        expr: callee,
        reg: register,
        base,
        needed: is_early(light, callee),
    };
    put_operand(below, scope, code, &early)?;
    put_row(below, scope, code, Timing::Eager, row, inner, arguments)
}

/// An external call whose arguments are in their seats.
fn call_outside(
    scope: &Scope,
    code: &mut Backwards,
    outside: Outside<'_>,
    given: u32,
    arguments: &[Expr],
    args: &Regs,
) -> Result<(), AllocError>
    requires { AreAnnotated (scoped_names scope.now) arguments.now }
    ensures { OnOk result (code.new ≡ emit.external_instruction outside.entry.name.now (comps_of_arguments
        (scoped_names scope.now) (expressions_of arguments.now)) outside.entry.result outside.entry.frame
        args.now (result_seat given outside.entry.result) ∷ code.old) }
{
    let comps = comps_of_arguments(scope, arguments)?;
    let results = result_seat(scope.alloc(), given, outside.result)?;
    code.external(
        outside.name,
        comps,
        outside.result,
        outside.frame,
        args,
        &results,
    )
}

/// An external call whose arguments are in their registers.
fn put_external(
    scope: &Scope,
    code: &mut Backwards,
    outside: Outside<'_>,
    numbers: CallNumbers,
    arguments: &[Expr],
) -> Result<(), AllocError>
    requires typed { AreAnnotated (scoped_names scope.now) arguments.now }
    requires row { numbers.row + length arguments.now < most_numbers }
    requires seats { numbers.seated + length arguments.now < most_numbers }
    ensures { OnOk result (code.new ≡ seated_code scope.now numbers (expressions_of arguments.now)
        (λ args. emit.external_instruction outside.entry.name.now (comps_of_arguments
        (scoped_names scope.now) (expressions_of arguments.now)) outside.entry.result outside.entry.frame
        args (result_seat numbers.given outside.entry.result) ∷ code.old)) }
{
    let regs = regs_of(scope, numbers.row, arguments)?;
    let args = seats(scope.alloc(), numbers.seated, &regs)?;
    call_outside(scope, code, outside, numbers.given, arguments, &args)?;
    code.moves_all(&regs, &args)
}

/// An external call. The only error is want of memory.
#[tactic(auto, using(crate::proofs::Rooms::row_wide, crate::proofs::Rooms::row_count))]
pub fn extcall<F: Fn(&mut Scope, &mut Backwards, Place, &Expr) -> Result<(), AllocError>>(
    below: &Below<'_, F>,
    scope: &mut Scope,
    code: &mut Backwards,
    node: Node,
    outside: Outside<'_>,
    arguments: &[Expr],
) -> Result<(), AllocError>
    requires callable { MayCall (F.pre below.now.select.now) below.now.first }
    requires selects { SelectsExpression (F.post below.now.select.now) below.now.first }
    requires tries { most_tries scope.old.labels ≤ node.place.base }
    requires begins { below.now.first ≡ node.place.base + 1 }
    requires room { HasExpressionRoom node.place.base (Extcall 0 outside.frame outside.name.now
        (expressions_of arguments.now) outside.result 0) }
    requires typed { AreAnnotated (scoped_names scope.old) arguments.now }
    requires ty { (at result_at : ℕ) → node.ty ≡ type_of (scoped_names scope.old) (Extcall at
        outside.frame outside.name.now (expressions_of arguments.now)
        outside.result result_at) }
    ensures code { OnOk result ((at result_at : ℕ) → code.new ≡ node_code scope.old node.place
        (Extcall at outside.entry.frame outside.entry.name.now (expressions_of arguments.now)
        outside.entry.result result_at) code.old) }
    ensures scope { OnOk result (scope.new ≡ scope.old) }
{
    let row = node.place.base + 1;
    let numbers = call_numbers(row, arguments.len());
    let base = numbers.base;
    code.from_seat(numbers.given, outside.result, node.dest())?;
    put_external(scope, code, outside, numbers, arguments)?;
    put_row(below, scope, code, Timing::Deferred, row, base, arguments)?;
    put_row(below, scope, code, Timing::Eager, row, base, arguments)
}

/// An exit to a handler, whose arguments are in their registers.
fn put_exit(
    scope: &Scope,
    code: &mut Backwards,
    label: &Label,
    row: u32,
    arguments: &[Expr],
) -> Result<(), AllocError>
    requires typed { AreAnnotated (scoped_names scope.now) arguments.now }
    requires room { row + length arguments.now < most_numbers }
    ensures { OnOk result (code.new ≡ exit_to_handler (visible_label scope.now.labels (label_view label.now))
        (regs_of scope.now.names row (expressions_of arguments.now)) code.old) }
{
    let regs = regs_of(scope, row, arguments)?;
    code.exit_to(scope.target_of(label), &regs)
}

/// An exit to a handler. The only error is want of memory.
#[tactic(auto, using(crate::proofs::Rooms::row_wide, crate::proofs::Rooms::row_count))]
pub fn exit<F: Fn(&mut Scope, &mut Backwards, Place, &Expr) -> Result<(), AllocError>>(
    below: &Below<'_, F>,
    scope: &mut Scope,
    code: &mut Backwards,
    node: Node,
    label: &Label,
    arguments: &[Expr],
) -> Result<(), AllocError>
    requires callable { MayCall (F.pre below.now.select.now) below.now.first }
    requires selects { SelectsExpression (F.post below.now.select.now) below.now.first }
    requires tries { most_tries scope.old.labels ≤ node.place.base }
    requires begins { below.now.first ≡ node.place.base + 1 }
    requires room { HasExpressionRoom node.place.base
        (Exit 0 0 (label_view label.now) (expressions_of arguments.now)) }
    requires typed { AreAnnotated (scoped_names scope.old) arguments.now }
    requires ty { (at label_at : ℕ) → node.ty ≡ type_of (scoped_names scope.old) (Exit at label_at
        (label_view label.now) (expressions_of arguments.now)) }
    ensures code { OnOk result ((at label_at : ℕ) → code.new ≡ node_code scope.old node.place
        (Exit at label_at (label_view label.now) (expressions_of arguments.now)) code.old) }
    ensures scope { OnOk result (scope.new ≡ scope.old) }
{
    let row = node.place.base + 1;
    let base = row + arguments.len() as u32;
    put_exit(scope, code, label, row, arguments)?;
    put_row(below, scope, code, Timing::Deferred, row, base, arguments)?;
    put_row(below, scope, code, Timing::Eager, row, base, arguments)
}

/// A raise of a value. The only error is want of memory.
pub fn raise<F: Fn(&mut Scope, &mut Backwards, Place, &Expr) -> Result<(), AllocError>>(
    below: &Below<'_, F>,
    scope: &mut Scope,
    code: &mut Backwards,
    node: Node,
    value: &Expr,
) -> Result<(), AllocError>
    requires callable { MayCall (F.pre below.now.select.now) below.now.first }
    requires selects { SelectsExpression (F.post below.now.select.now) below.now.first }
    requires tries { most_tries scope.old.labels ≤ node.place.base }
    requires begins { below.now.first ≡ node.place.base + 1 }
    requires room { HasExpressionRoom node.place.base (Raise 0 (expr_view value.now)) }
    requires typed { IsAnnotated (scoped_names scope.old) value.now }
    requires ty { (at : ℕ) → node.ty ≡ type_of (scoped_names scope.old) (Raise at (expr_view
        value.now)) }
    ensures code { OnOk result ((at : ℕ) → code.new ≡ node_code scope.old node.place
        (Raise at (expr_view value.now)) code.old) }
    ensures scope { OnOk result (scope.new ≡ scope.old) }
{
    let base = node.place.base + 3;
    let register = fresh(base - 2, value.ty);
    let raised = seat(0, base - 1, Comp::Val);
    code.raising(raised)?;
    code.move_to(register, raised)?;
    one(below, scope, code, operand_at(register, base), value)
}
