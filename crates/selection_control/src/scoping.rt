//! Forms in which names or labels are visible in a part.
ghost use Rattle.std.specs.Prelude.{◌≡◌, ℕ, ◌+◌, ◌<◌, ◌≤◌, ◌∷◌, false, length, drop, OnOk};
ghost use Rattle.bs_words.specs.declared.types.Ty.TheVariants as type;
ghost use Rattle.cmm_tree.specs.Rows.{bindings_of, handlers_of};
ghost use Rattle.cmm_tree.specs.Tree.{Let, Assign, Catch, Try};
ghost use Rattle.cmm_tree.specs.View.{expr_view, params_view};
ghost use Rattle.cmm_types.specs.Annotated.{IsAnnotated};
ghost use Rattle.cmm_types.specs.Lists.{AreBindingsAnnotated, AreHandlersAnnotated};
ghost use Rattle.cmm_types.specs.Types.{type_of, with_bindings, with_parameters};
ghost use Rattle.selection_rules.specs.Select.{scopes, select, select_bound, select_handlers, env_after, with_params, params_from, labels_within_try};
ghost use Rattle.selection_rules.specs.Select.{width_bound, width_handlers, width_labels};
ghost use Rattle.selection_operands.specs.Below.{node_code, MayCall, SelectsExpression};
ghost use Rattle.selection_scope.specs.Room.{HasExpressionRoom, indexes_in_bound, indexes_in_handlers, most_numbers, most_tries};
ghost use Rattle.selection_scope.specs.Scoping.{scoped_names};

use bs_words::{Comp, Name, Ty};
use cmm_tree::{Binding, Expr, Handler};
use cmm_types::{is_mutable, type_bound};
use mach_ir::{Label, Mark, Reg};
use selection_code::backwards::Backwards;
use selection_operands::operands::{Below, one};
use selection_scope::place::{Node, Place, fresh, operand_at};
use selection_scope::scope::Scope;
use selection_scope::seats::seat;
use selection_scope::width::{behind, behind_bindings, behind_handlers, behind_labels, width_of};
use std::alloc::AllocError;

/// A new value for a name. The only error is want of memory.
pub fn assign<F: Fn(&mut Scope, &mut Backwards, Place, &Expr) -> Result<(), AllocError>>(
    below: &Below<'_, F>,
    scope: &mut Scope,
    code: &mut Backwards,
    node: Node,
    name: &Name,
    value: &Expr,
) -> Result<(), AllocError>
    requires callable { MayCall (F.pre below.now.select.now) below.now.first }
    requires selects { SelectsExpression (F.post below.now.select.now) below.now.first }
    requires tries { most_tries scope.old.labels ≤ node.place.base }
    requires begins { below.now.first ≡ node.place.base + 1 }
    requires room { HasExpressionRoom node.place.base (Assign 0 0 name.now (expr_view value.now)) }
    requires typed { IsAnnotated (scoped_names scope.old) value.now }
    requires ty { (at name_at : ℕ) → node.ty ≡ type_of (scoped_names scope.old) (Assign at name_at
        name.now (expr_view value.now)) }
    ensures code { OnOk result ((at name_at : ℕ) → code.new ≡ node_code scope.old node.place
        (Assign at name_at name.now (expr_view value.now)) code.old) }
    ensures scope { OnOk result (scope.new ≡ scope.old) }
{
    let base = node.place.base + 2;
    let register = fresh(base - 1, value.ty);
    code.move_into(register, scope.reg_of(name))?;
    one(below, scope, code, operand_at(register, base), value)
}

/// Binds the names of a let to registers. Each has a number, and after it those of its value.
fn bind_all(scope: &mut Scope, number: u32, bindings: &[Binding]) -> Result<(), AllocError>
    requires typed { AreBindingsAnnotated (scoped_names scope.old) bindings.now }
    requires room { number + width_bound (bindings_of bindings.now) < most_numbers }
    ensures { OnOk result (scope.new ≡ record scope.old {
      names = env_after scope.old.names number (bindings_of bindings.now);
    }) }
{
    let mut next = number;
    let mut rest = bindings;
    while let [binding, others @ ..] = rest {
        let ty = type_bound(binding.declared, binding.value.ty);
        let mutable = is_mutable(binding.declared);
        scope.bind(&binding.name, ty, mutable, fresh(next, ty))?;
        next = behind(next, &binding.value) + 1;
        rest = others;
    }
    Ok(())
}

/// The values of a let, the last first: the scope of each is left before its value.
fn values<F: Fn(&mut Scope, &mut Backwards, Place, &Expr) -> Result<(), AllocError>>(
    below: &Below<'_, F>,
    scope: &mut Scope,
    code: &mut Backwards,
    number: u32,
    bindings: &[Binding],
) -> Result<(), AllocError>
    requires callable { MayCall (F.pre below.now.select.now) below.now.first }
    requires selects { SelectsExpression (F.post below.now.select.now) below.now.first }
    requires tries { most_tries scope.old.labels ≤ below.now.first }
    requires begins { below.now.first ≤ number }
    requires room { number + (width_bound (bindings_of bindings.now)
        + indexes_in_bound (bindings_of bindings.now)) < most_numbers }
    requires names { scope.old.names ≡ env_after (drop (length bindings.now) scope.old.names)
        number (bindings_of bindings.now) }
    requires typed { AreBindingsAnnotated (scopes (drop (length bindings.now)
        scope.old.names)) bindings.now }
    ensures code { OnOk result (code.new ≡ select_bound (drop (length bindings.now)
        scope.old.names) scope.old.labels number (bindings_of bindings.now) code.old) }
    ensures scope { OnOk result (scope.new ≡ record scope.old {
      names = drop (length bindings.now) scope.old.names;
    }) }
{
    let mut rest = bindings;
    while let Some((last, others)) = rest.split_last() {
        let Some(register) = scope.unbind() else {
            unreachable!();
        };
        let base = register.number + 1;
        one(below, scope, code, operand_at(register, base), &last.value)?;
        rest = others;
    }
    Ok(())
}

/// Bindings, one after the other, and what is in their scope. The only error is want of memory.
pub fn let_in<F: Fn(&mut Scope, &mut Backwards, Place, &Expr) -> Result<(), AllocError>>(
    below: &Below<'_, F>,
    scope: &mut Scope,
    code: &mut Backwards,
    node: Node,
    bindings: &[Binding],
    body: &Expr,
) -> Result<(), AllocError>
    requires callable { MayCall (F.pre below.now.select.now) below.now.first }
    requires selects { SelectsExpression (F.post below.now.select.now) below.now.first }
    requires tries { most_tries scope.old.labels ≤ node.place.base }
    requires begins { below.now.first ≡ node.place.base + 1 }
    requires room { HasExpressionRoom node.place.base
        (Let 0 (bindings_of bindings.now) (expr_view body.now)) }
    requires typed { AreBindingsAnnotated (scoped_names scope.old) bindings.now }
    requires body_typed { IsAnnotated (with_bindings (scoped_names scope.old) (bindings_of
        bindings.now)) body.now }
    requires ty { (at : ℕ) → node.ty ≡ type_of (scoped_names scope.old) (Let at (bindings_of
        bindings.now) (expr_view body.now)) }
    ensures code { OnOk result ((at : ℕ) → code.new ≡ node_code scope.old node.place
        (Let at (bindings_of bindings.now) (expr_view body.now)) code.old) }
    ensures scope { OnOk result (scope.new ≡ scope.old) }
{
    let first = node.place.base + 1;
    let base = behind_bindings(first, bindings);
    bind_all(scope, first, bindings)?;
    one(below, scope, code, node.part(base), body)?;
    values(below, scope, code, first, bindings)
}

/// The body of a handler, in the scope of its parameters.
fn handler_body<F: Fn(&mut Scope, &mut Backwards, Place, &Expr) -> Result<(), AllocError>>(
    below: &Below<'_, F>,
    scope: &mut Scope,
    code: &mut Backwards,
    place: Place,
    number: u32,
    handler: &Handler,
) -> Result<(), AllocError>
    requires callable { MayCall (F.pre below.now.select.now) below.now.first }
    requires selects { SelectsExpression (F.post below.now.select.now) below.now.first }
    requires tries { most_tries scope.old.labels ≤ below.now.first }
    requires begins { below.now.first ≤ place.base }
    requires room { HasExpressionRoom place.base (expr_view handler.now.body) }
    requires params { number + length handler.now.params.items < most_numbers }
    requires typed { IsAnnotated (with_parameters (params_view handler.now.params.items)
        (scoped_names scope.old)) handler.now.body }
    ensures code { OnOk result (code.new ≡ select (with_params (params_view
        handler.now.params.items)
        (params_from number (params_view handler.now.params.items)) scope.old.names)
        scope.old.labels place.valued place.tail place.dest place.base
        (expr_view handler.now.body) code.old) }
    ensures scope { OnOk result (scope.new ≡ scope.old) }
{
    let left = scope.names_len();
    scope.bind_params(handler.params.as_slice(), number)?;
    one(below, scope, code, place, &handler.body)?;
    scope.leave_names(left);
    Ok(())
}

/// The bodies of the handlers of a catch.
fn handler_bodies<F: Fn(&mut Scope, &mut Backwards, Place, &Expr) -> Result<(), AllocError>>(
    below: &Below<'_, F>,
    scope: &mut Scope,
    code: &mut Backwards,
    place: Place,
    end: u32,
    first: u32,
    handlers: &[Handler],
) -> Result<(), AllocError>
    requires callable { MayCall (F.pre below.now.select.now) below.now.first }
    requires selects { SelectsExpression (F.post below.now.select.now) below.now.first }
    requires tries { most_tries scope.old.labels ≤ below.now.first }
    requires begins { below.now.first ≤ place.base }
    requires labels { first + width_labels (handlers_of handlers.now) < most_numbers }
    requires room { place.base + (width_handlers (handlers_of handlers.now)
        + indexes_in_handlers (handlers_of handlers.now)) < most_numbers }
    requires typed { AreHandlersAnnotated (scoped_names scope.old) handlers.now }
    ensures code { OnOk result (code.new ≡ select_handlers scope.old.names scope.old.labels
        place.valued place.tail place.dest end first place.base
        (handlers_of handlers.now) code.old) }
    ensures scope { OnOk result (scope.new ≡ scope.old) }
{
    let mut label = behind_labels(first, handlers);
    let mut base = behind_handlers(place.base, handlers);
    let mut rest = handlers;
    while let Some((last, others)) = rest.split_last() {
        let params = label - last.params.len() as u32;
        label = params - 1;
        base -= width_of(&last.body);
        handler_body(below, scope, code, Place { base, ..place }, params, last)?;
        code.bare(Mark::With {
            label: Label(label),
            end: Label(end),
        })?;
        rest = others;
    }
    Ok(())
}

/// A body, and handlers to which an exit may leave. The only error is want of memory.
pub fn catch<F: Fn(&mut Scope, &mut Backwards, Place, &Expr) -> Result<(), AllocError>>(
    below: &Below<'_, F>,
    scope: &mut Scope,
    code: &mut Backwards,
    node: Node,
    body: &Expr,
    handlers: &[Handler],
) -> Result<(), AllocError>
    requires callable { MayCall (F.pre below.now.select.now) below.now.first }
    requires selects { SelectsExpression (F.post below.now.select.now) below.now.first }
    requires tries { most_tries scope.old.labels ≤ node.place.base }
    requires begins { below.now.first ≡ node.place.base + 1 }
    requires room { HasExpressionRoom node.place.base
        (Catch 0 (expr_view body.now) (handlers_of handlers.now)) }
    requires body_typed { IsAnnotated (scoped_names scope.old) body.now }
    requires typed { AreHandlersAnnotated (scoped_names scope.old) handlers.now }
    requires ty { (at : ℕ) → node.ty ≡ type_of (scoped_names scope.old) (Catch at (expr_view body.now)
        (handlers_of handlers.now)) }
    ensures code { OnOk result ((at : ℕ) → code.new ≡ node_code scope.old node.place
        (Catch at (expr_view body.now) (handlers_of handlers.now)) code.old) }
    ensures scope { OnOk result (scope.new ≡ scope.old) }
{
    let first = node.place.base + 2;
    let end = first - 1;
    let base = behind_labels(first, handlers);
    let inner = behind(base, body);
    let left = scope.labels_len();
    code.bare(Mark::End { label: Label(end) })?;
    scope.enter_handlers(handlers, first)?;
    handler_bodies(below, scope, code, node.part(inner), end, first, handlers)?;
    scope.leave_labels(left);
    scope.enter_body(handlers, first)?;
    one(below, scope, code, node.part(base), body)?;
    scope.leave_labels(left);
    code.bare(Mark::Catch)
}

/// What handles a raise: the raised value has this name, and is in this register.
fn raised<F: Fn(&mut Scope, &mut Backwards, Place, &Expr) -> Result<(), AllocError>>(
    below: &Below<'_, F>,
    scope: &mut Scope,
    code: &mut Backwards,
    place: Place,
    register: Reg,
    name: &Name,
    handler: &Expr,
) -> Result<(), AllocError>
    requires callable { MayCall (F.pre below.now.select.now) below.now.first }
    requires selects { SelectsExpression (F.post below.now.select.now) below.now.first }
    requires tries { most_tries scope.old.labels ≤ below.now.first }
    requires begins { below.now.first ≤ place.base }
    requires room { HasExpressionRoom place.base (expr_view handler.now) }
    requires typed { IsAnnotated (record {
      name = name.now;
      type = type.Val;
      mutable = false;
    } ∷ (scoped_names scope.old)) handler.now }
    ensures code { OnOk result (code.new ≡ select (record {
      scoped = record { name = name.now; type = type.Val; mutable = false };
      reg = register;
    } ∷ scope.old.names) scope.old.labels place.valued place.tail place.dest place.base
        (expr_view handler.now) code.old) }
    ensures scope { OnOk result (scope.new ≡ scope.old) }
{
    scope.bind(name, Ty::Val, false, register)?;
    one(below, scope, code, place, handler)?;
    let _bound = scope.unbind();
    Ok(())
}

/// The body of a try.
fn in_try<F: Fn(&mut Scope, &mut Backwards, Place, &Expr) -> Result<(), AllocError>>(
    below: &Below<'_, F>,
    scope: &mut Scope,
    code: &mut Backwards,
    place: Place,
    body: &Expr,
) -> Result<(), AllocError>
    requires callable { MayCall (F.pre below.now.select.now) below.now.first }
    requires selects { SelectsExpression (F.post below.now.select.now) below.now.first }
    requires tries { most_tries scope.old.labels < below.now.first }
    requires begins { below.now.first ≤ place.base }
    requires room { HasExpressionRoom place.base (expr_view body.now) }
    requires typed { IsAnnotated (scoped_names scope.old) body.now }
    ensures code { OnOk result (code.new ≡ select scope.old.names (labels_within_try scope.old.labels)
        place.valued place.tail place.dest place.base (expr_view body.now) code.old) }
    ensures scope { OnOk result (scope.new ≡ scope.old) }
{
    scope.enter_try()?;
    one(below, scope, code, place, body)?;
    scope.leave_try()
}

/// A body, and what handles a raise out of it. The only error is want of memory.
pub fn try_with<F: Fn(&mut Scope, &mut Backwards, Place, &Expr) -> Result<(), AllocError>>(
    below: &Below<'_, F>,
    scope: &mut Scope,
    code: &mut Backwards,
    node: Node,
    body: &Expr,
    name: &Name,
    handler: &Expr,
) -> Result<(), AllocError>
    requires callable { MayCall (F.pre below.now.select.now) below.now.first }
    requires selects { SelectsExpression (F.post below.now.select.now) below.now.first }
    requires tries { most_tries scope.old.labels ≤ node.place.base }
    requires begins { below.now.first ≡ node.place.base + 1 }
    requires room { HasExpressionRoom node.place.base
        (Try 0 (expr_view body.now) 0 name.now (expr_view handler.now)) }
    requires body_typed { IsAnnotated (scoped_names scope.old) body.now }
    requires typed { IsAnnotated (record {
      name = name.now;
      type = type.Val;
      mutable = false;
    } ∷ (scoped_names scope.old)) handler.now }
    requires ty { (at name_at : ℕ) → node.ty ≡ type_of (scoped_names scope.old) (Try at (expr_view
        body.now) name_at name.now (expr_view handler.now)) }
    ensures code { OnOk result ((at name_at : ℕ) → code.new ≡ node_code scope.old node.place
        (Try at (expr_view body.now) name_at name.now (expr_view handler.now)) code.old) }
    ensures scope { OnOk result (scope.new ≡ scope.old) }
{
    let base = node.place.base + 5;
    let label = Label(base - 4);
    let end = Label(base - 3);
    let register = fresh(base - 2, Ty::Val);
    let seated = seat(0, base - 1, Comp::Val);
    let inner = behind(base, body);
    code.bare(Mark::End { label: end })?;
    raised(
        below,
        scope,
        code,
        node.part(inner),
        register,
        name,
        handler,
    )?;
    code.move_to(seated, register)?;
    code.handler(label, seated)?;
    code.bare(Mark::Leave {
        handler: label,
        end,
    })?;
    // No call in it takes the place of the function, whose trap is still there.
    let place = Place {
        tail: false,
        ..node.part(base)
    };
    in_try(below, scope, code, place, body)?;
    code.bare(Mark::Try { handler: label })
}
