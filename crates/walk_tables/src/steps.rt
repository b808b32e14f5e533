//! The nodes of a function: each cell's task, and the cells that may come next.
ghost use Rattle.std.specs.Prelude.{◌+◌, ◌≤◌, ◌∷◌, ◌++◌, suc, [], List, length, IfOk};
ghost use Rattle.cmm_tree.specs.View.{expr_view, params_view, label_view};
ghost use Rattle.cmm_types.specs.Annotated.{IsAnnotated};
ghost use Rattle.cmm_types.specs.Lists.{AreBindingsAnnotated, AreCasesAnnotated, AreHandlersAnnotated};
ghost use Rattle.cmm_tree.specs.Rows.{bindings_of, cases_of};
ghost use Rattle.cmm_types.specs.Types.{with_bindings, with_parameters};
ghost use Rattle.walk_tables.specs.Walks.{Slotted, Evaluates, Enters, OneOf, MayRaise, Raises, Exits, names, bodies, parameters_bound};
ghost use Rattle.walk_tables.specs.Cells.{cells, scope_at, tasks_at, tasks_in, handler_tasks};
ghost use Rattle.walk_tables.specs.Sound.{free_in, AreItemsSound, IsBelow, IsItemHeld, IsCellReady, IsScope, HandlersAt, Steps, AddsBodies};

use crate::items::{Action, Cells, Item};
use crate::node::{Node, any_of, forked, last, quiet, telling};
use cmm_tree::{Binding, Case, Expr, Handler, Label, Param};
use cmm_types::is_address;
use std::alloc::{AllocError, Global};

/// What a handler evaluates once its parameters are bound, and where it then goes on.
#[derive(Clone, Copy)]
struct Handled<'a> {
    scope: usize,
    free: usize,
    body: &'a Expr,
    caught: usize,
}

impl<'a> Cells<'a> {
    /// The node of an expression.
    fn evaluate(
        &mut self,
        scope: usize,
        slot: usize,
        expr: &'a Expr,
        rest: usize,
    ) -> Result<Node, AllocError>
        requires { slot ≤ length (cells self.old) }
        ensures { IfOk result (λ node. (s : List Slotted) → IsCellReady (cells self.old) rest →
            IsScope (cells self.old) scope s → IsAnnotated (names s) expr.now →
            Steps (cells self.old) (cells self.new) (Evaluates s slot
            (expr_view expr.now) ∷ tasks_at (cells self.old) rest) node) }
    {
        let cell = self.form(scope, slot, expr, rest)?;
        Ok(quiet(cell))
    }

    /// The node of bindings and what is evaluated in their scope.
    fn enter(
        &mut self,
        scope: usize,
        slot: usize,
        bindings: &'a [Binding],
        body: &'a Expr,
        rest: usize,
    ) -> Result<Node, AllocError>
        requires { slot ≤ length (cells self.old) }
        ensures { IfOk result (λ node. (s : List Slotted) → IsCellReady (cells self.old) rest →
            IsScope (cells self.old) scope s →
            AreBindingsAnnotated (names s) bindings.now →
            IsAnnotated (with_bindings (names s) (bindings_of bindings.now)) body.now →
            Steps (cells self.old) (cells self.new) (Enters s slot
            (bindings_of bindings.now) (expr_view body.now) ∷ tasks_at
            (cells self.old) rest) node) }
    {
        let cell = self.entering(scope, slot, bindings, body, rest)?;
        Ok(quiet(cell))
    }

    /// The node of a choice of two.
    fn either(
        &mut self,
        scope: usize,
        slot: usize,
        on_true: &'a Expr,
        on_false: &'a Expr,
        rest: usize,
    ) -> Result<Node, AllocError>
        requires { slot ≤ length (cells self.old) }
        ensures { IfOk result (λ node. (s : List Slotted) → IsCellReady (cells self.old) rest →
            IsScope (cells self.old) scope s → IsAnnotated (names s) on_true.now →
            IsAnnotated (names s) on_false.now →
            Steps (cells self.old) (cells self.new) (OneOf s slot
            (expr_view on_true.now ∷ expr_view on_false.now ∷ []) ∷ tasks_at
            (cells self.old) rest) node) }
    {
        let first = self.eval(scope, slot, on_true, rest)?;
        let second = self.eval(scope, slot, on_false, rest)?;
        Ok(forked(first, second))
    }

    /// Cells for the bodies of the cases, each with `rest` after it.
    fn bodies(
        &mut self,
        scope: usize,
        slot: usize,
        cases: &'a [Case],
        rest: usize,
        next: &mut Vec<usize>,
    ) -> Result<(), AllocError>
        ensures { IfOk result (λ _. (s : List Slotted) → IsCellReady (cells self.old) rest →
            IsScope (cells self.old) scope s →
            AreCasesAnnotated (names s) cases.now →
            slot ≤ length (cells self.old) →
            AddsBodies (cells self.old) (cells self.new) s slot (tasks_at
            (cells self.old) rest) next.old.items next.new.items (bodies (cases_of cases.now))) }
    {
        match cases {
            [] => Ok(()),
            [first, others @ ..] => {
                let body = self.eval(scope, slot, &first.body, rest)?;
                next.push(body)?;
                self.bodies(scope, slot, others, rest, next)?;
                Ok(())
            }
        }
    }

    /// The node of a choice among the cases.
    fn one_of(
        &mut self,
        alloc: Global,
        scope: usize,
        slot: usize,
        cases: &'a [Case],
        rest: usize,
    ) -> Result<Node, AllocError>
        requires { slot ≤ length (cells self.old) }
        ensures { IfOk result (λ node. (s : List Slotted) → IsCellReady (cells self.old) rest →
            IsScope (cells self.old) scope s → AreCasesAnnotated (names s) cases.now →
            Steps (cells self.old) (cells self.new) (OneOf s slot (bodies
            (cases_of cases.now)) ∷ tasks_at (cells self.old) rest) node) }
    {
        let mut next = Vec::new(alloc);
        self.bodies(scope, slot, cases, rest, &mut next)?;
        Ok(any_of(next))
    }

    /// The node of a call or a test.
    fn go_on_or_raise(&mut self, rest: usize) -> Result<Node, AllocError>
        ensures { IfOk result (λ node. IsCellReady (cells self.old) rest →
            Steps (cells self.old) (cells self.new) (MayRaise ∷ tasks_at
            (cells self.old) rest) node) }
    {
        let raises = self.raises(rest)?;
        Ok(forked(rest, raises))
    }

    /// The node of a raise.
    fn leave_by_raise(&self, rest: usize) -> Node
        ensures { AreItemsSound (cells self.now) →
            Steps (cells self.now) (cells self.now) (Raises ∷ tasks_at
            (cells self.now) rest) result }
    {
        match self.raise(rest) {
            None => last(),
            Some(cell) => quiet(cell),
        }
    }

    /// The node of an exit.
    fn leave_by_exit(&self, label: &Label, rest: usize) -> Node
        requires { AreItemsSound (cells self.now) }
        ensures { Steps (cells self.now) (cells self.now) (Exits
            (label_view label.now) ∷ tasks_at (cells self.now) rest) result }
    {
        match self.exit(label, rest) {
            None => last(),
            Some(cell) => quiet(cell),
        }
    }

    /// The node of the first parameter of a handler.
    fn enter_bound(
        &mut self,
        slot: usize,
        param: &'a Param,
        others: &'a [Param],
        handled: Handled<'a>,
    ) -> Result<Node, AllocError>
        requires { slot + suc (length others.now) ≤ usize.MAX }
        ensures { IfOk result (λ node. (s : List Slotted) →
            IsCellReady (cells self.old) handled.entry.caught →
            IsScope (cells self.old) handled.entry.scope s →
            IsAnnotated (names s) handled.entry.body.now →
            handled.entry.free ≤ length (cells self.old) →
            Steps (cells self.old) (cells self.new) (parameters_bound slot
            (params_view (param.now ∷ others.now)) ++ (Evaluates s handled.entry.free
            (expr_view handled.entry.body.now)
            ∷ tasks_at (cells self.old) handled.entry.caught)) node) }
    {
        let next = slot + 1;
        let evaluated = self.eval(handled.scope, handled.free, handled.body, handled.caught)?;
        let bound = self.parameters_bound(next, others, evaluated)?;
        let address = is_address(param.comp.ty());
        let at = param.at;
        Ok(telling(Action::Binds { slot, address, at }, bound))
    }

    /// The node of a handler in the scope of its parameters.
    fn enter_handler(
        &mut self,
        inner: usize,
        slot: usize,
        params: &'a [Param],
        body: &'a Expr,
        caught: usize,
    ) -> Result<Node, AllocError>
        requires { slot + length params.now ≤ length (cells self.old) }
        ensures { IfOk result (λ node. (s : List Slotted) → IsCellReady (cells self.old) caught →
            IsScope (cells self.old) inner s → IsAnnotated (names s) body.now →
            Steps (cells self.old) (cells self.new) (parameters_bound slot
            (params_view params.now) ++ (Evaluates s (slot + length
            (params_view params.now)) (expr_view body.now) ∷ tasks_at
            (cells self.old) caught)) node) }
    {
        let free = slot + params.len();
        match params {
            [] => self.evaluate(inner, free, body, caught),
            [param, others @ ..] => {
                let handled = Handled {
                    scope: inner,
                    free,
                    body,
                    caught,
                };
                self.enter_bound(slot, param, others, handled)
            }
        }
    }

    /// The node of a handler.
    fn handle(
        &mut self,
        scope: usize,
        slot: usize,
        handlers: &'a [Handler],
        own: &'a Handler,
        first: usize,
        rest: usize,
    ) -> Result<Node, AllocError>
        requires { slot ≤ length (cells self.old) }
        ensures { IfOk result (λ node. (s : List Slotted) → IsCellReady (cells self.old) rest →
            IsScope (cells self.old) scope s →
            AreHandlersAnnotated (names s) handlers.now →
            HandlersAt (length (cells self.old)) (tasks_at
            (cells self.old)) first s slot handlers.now (tasks_at
            (cells self.old) rest) handlers.now →
            IsAnnotated (with_parameters (params_view own.now.params.items)
            (names s)) own.now.body → Steps (cells self.old) (cells self.new)
            (handler_tasks s slot handlers.now (tasks_at (cells self.old) rest) own.now) node) }
    {
        let in_handler = true;
        let caught = self.push(Item::Catches {
            scope,
            slot,
            in_handler,
            handlers,
            first,
            rest,
        })?;
        let params = own.params.as_slice();
        let inner = self.with_slots(scope, slot, params)?;
        let node = self.enter_handler(inner, slot, params, &own.body, caught)?;
        Ok(node)
    }

    /// The node of a cell. The only error is want of memory.
    pub fn step(&mut self, alloc: Global, item: Item<'a>) -> Result<Node, AllocError>
        requires sound { AreItemsSound (cells self.old) }
        requires placed { free_in item ≤ length (cells self.old) }
        ensures { IfOk result (λ node. IsBelow (length (cells self.old)) item.entry →
            IsItemHeld (length (cells self.old)) (scope_at (cells self.old)) (tasks_at
            (cells self.old)) item.entry →
            Steps (cells self.old) (cells self.new) (tasks_in (scope_at
            (cells self.old)) (tasks_at (cells self.old)) item.entry) node) }
    {
        match item {
            Item::Empty => Ok(last()),
            Item::Named { .. } => Ok(last()),
            Item::Does { action, rest } => Ok(telling(action, rest)),
            Item::Evaluates {
                scope,
                slot,
                expr,
                rest,
            } => self.evaluate(scope, slot, expr, rest),
            Item::Enters {
                scope,
                slot,
                bindings,
                body,
                rest,
            } => self.enter(scope, slot, bindings, body, rest),
            Item::Either {
                scope,
                slot,
                on_true,
                on_false,
                rest,
            } => self.either(scope, slot, on_true, on_false, rest),
            Item::OneOf {
                scope,
                slot,
                cases,
                rest,
            } => self.one_of(alloc, scope, slot, cases, rest),
            Item::MayRaise { rest } => self.go_on_or_raise(rest),
            Item::Raises { rest } => Ok(self.leave_by_raise(rest)),
            Item::Exits { label, rest } => Ok(self.leave_by_exit(label, rest)),
            Item::Catches { rest, .. } => Ok(quiet(rest)),
            Item::Handler {
                scope,
                slot,
                handlers,
                own,
                first,
                rest,
            } => self.handle(scope, slot, handlers, own, first, rest),
            Item::Handles { rest, .. } => Ok(quiet(rest)),
        }
    }
}
