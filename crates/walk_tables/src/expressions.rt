//! Cells for the tasks of an expression.
ghost use Rattle.std.specs.Prelude.{◌≡◌, suc, ◌∷◌, ◌++◌, ◌+◌, ◌<◌, ◌≤◌, [], List, IfOk, length, true, false};
ghost use Rattle.bs_words.specs.declared.types.Ty.TheVariants as ty;
ghost use Rattle.cmm_tree.specs.Tree.{More};
ghost use Rattle.cmm_tree.specs.View.{expr_view, label_view};
ghost use Rattle.cmm_types.specs.Annotated.{IsAnnotated};
ghost use Rattle.cmm_types.specs.Lists.{AreAnnotated, AreBindingsAnnotated, AreCasesAnnotated, AreHandlersAnnotated};
ghost use Rattle.cmm_tree.specs.Rows.{expressions_of, bindings_of, cases_of, handlers_of};
ghost use Rattle.walk_tables.specs.Walks.{Slotted, Does, Evaluates, Enters, Passes, OneOf, MayRaise, Raises, Exits};
ghost use Rattle.walk_tables.specs.Walks.{Catches, Handles, names, used_at, bound_at, slot_of, operand_uses, waiting};
ghost use Rattle.cmm_tree.specs.Measures.{count_of};
ghost use Rattle.walk_tables.specs.Walks.{filled_slots, all_operands, on_one, on_two, bodies, handling, call_tasks, tasks_of};
ghost use Rattle.cmm_types.specs.Types.{type_named, with_bindings};
ghost use Rattle.walk_tables.specs.Cells.{cells};
ghost use Rattle.walk_tables.specs.Sound.{IsCellReady, IsScope, AddsCells, AddsHandlers};

use crate::items::{Action, Cells, Item};
use bs_words::{Name, Ty};
use cmm_tree::{Binding, Case, Expr, Form, Handler, Label};
use cmm_types::is_address;
use std::alloc::AllocError;

impl<'a> Cells<'a> {
    /// A call or a test, which may raise.
    fn may_raise(&mut self, rest: usize) -> Result<usize, AllocError>
        ensures adds { IfOk result (λ cell. IsCellReady (cells self.old) rest →
            AddsCells (cells self.old) (cells self.new) cell (MayRaise ∷ []) rest) }
        ensures more { IfOk result (λ _. length (cells self.new) ≡ suc (length (cells self.old))) }
    {
        let cell = self.push(Item::MayRaise { rest })?;
        Ok(cell)
    }

    /// A raise. The only error is want of memory.
    pub fn raises(&mut self, rest: usize) -> Result<usize, AllocError>
        ensures adds { IfOk result (λ cell. IsCellReady (cells self.old) rest →
            AddsCells (cells self.old) (cells self.new) cell (Raises ∷ []) rest) }
        ensures more { IfOk result (λ _. length (cells self.new) ≡ suc (length (cells self.old))) }
    {
        let cell = self.push(Item::Raises { rest })?;
        Ok(cell)
    }

    /// An operation on one operand.
    fn on_one(
        &mut self,
        scope: usize,
        slot: usize,
        at: u32,
        expr: &'a Expr,
        rest: usize,
    ) -> Result<usize, AllocError>
        requires { slot ≤ length (cells self.old) }
        ensures { IfOk result (λ cell. (s : List Slotted) → IsCellReady (cells self.old) rest →
            IsScope (cells self.old) scope s → IsAnnotated (names s) expr.now →
            AddsCells (cells self.old) (cells self.new) cell (on_one s slot at
            (expr_view expr.now)) rest) }
    {
        let free = slot + 1;
        let taken = self.takes(at, slot, 1, rest)?;
        let filled = self.fill_one(scope, free, slot, expr, taken)?;
        let cell = self.wait_one(scope, free, slot, expr, filled)?;
        Ok(cell)
    }

    /// An operation on two operands.
    fn on_two(
        &mut self,
        scope: usize,
        slot: usize,
        at: u32,
        left: &'a Expr,
        right: &'a Expr,
        rest: usize,
    ) -> Result<usize, AllocError>
        requires { slot ≤ length (cells self.old) }
        ensures { IfOk result (λ cell. (s : List Slotted) → IsCellReady (cells self.old) rest →
            IsScope (cells self.old) scope s → IsAnnotated (names s) left.now →
            IsAnnotated (names s) right.now →
            AddsCells (cells self.old) (cells self.new) cell (on_two s slot at
            (expr_view left.now) (expr_view right.now)) rest) }
    {
        let free = slot + 2;
        let second = slot + 1;
        let taken = self.takes(at, slot, 2, rest)?;
        let first_filled = self.fill_one(scope, free, slot, left, taken)?;
        let filled = self.fill_one(scope, free, second, right, first_filled)?;
        let first_done = self.wait_one(scope, free, slot, left, filled)?;
        let cell = self.wait_one(scope, free, second, right, first_done)?;
        Ok(cell)
    }

    /// An operation on these operands.
    fn on_all(
        &mut self,
        scope: usize,
        slot: usize,
        at: u32,
        exprs: &'a [Expr],
        rest: usize,
    ) -> Result<usize, AllocError>
        requires { slot ≤ length (cells self.old) }
        ensures { IfOk result (λ cell. (s : List Slotted) → IsCellReady (cells self.old) rest →
            IsScope (cells self.old) scope s → AreAnnotated (names s) exprs.now →
            AddsCells (cells self.old) (cells self.new) cell (all_operands s slot
            (expressions_of exprs.now) ++ operand_uses at slot (count_of (expressions_of exprs.now))) rest) }
    {
        let taken = self.takes(at, slot, exprs.len(), rest)?;
        let cell = self.all_operands(scope, slot, exprs, taken)?;
        Ok(cell)
    }

    /// An allocation. It takes its operands after its frame point.
    fn alloc(
        &mut self,
        scope: usize,
        slot: usize,
        at: u32,
        exprs: &'a [Expr],
        rest: usize,
    ) -> Result<usize, AllocError>
        requires { slot ≤ length (cells self.old) }
        ensures { IfOk result (λ cell. (s : List Slotted) → IsCellReady (cells self.old) rest →
            IsScope (cells self.old) scope s → AreAnnotated (names s) exprs.now →
            AddsCells (cells self.old) (cells self.new) cell (waiting s (slot + count_of
            (expressions_of exprs.now)) slot (expressions_of exprs.now) ++ (Does (Passes at) ∷ (filled_slots s
            (slot + count_of (expressions_of exprs.now)) slot (expressions_of exprs.now) ++ operand_uses at slot
            (count_of (expressions_of exprs.now))))) rest) }
    {
        let free = slot + exprs.len();
        let taken = self.takes(at, slot, exprs.len(), rest)?;
        let filled = self.fill(scope, free, slot, exprs, taken)?;
        let passed = self.does(Action::Passes { at }, filled)?;
        let cell = self.wait(scope, free, slot, exprs, passed)?;
        Ok(cell)
    }

    /// What is after the operands of a call: the frame point of an app or a frame call, and a raise out of it.
    fn called(&mut self, frame: bool, at: u32, rest: usize) -> Result<usize, AllocError>
        ensures adds { IfOk result (λ cell. IsCellReady (cells self.old) rest →
            AddsCells (cells self.old) (cells self.new) cell (call_tasks frame at) rest) }
        ensures more { IfOk result (λ _. length (cells self.old) ≤ length (cells self.new)) }
    {
        if frame {
            let may_raise = self.may_raise(rest)?;
            let cell = self.does(Action::Passes { at }, may_raise)?;
            Ok(cell)
        } else {
            Ok(rest)
        }
    }

    /// An external call.
    fn extcall(
        &mut self,
        scope: usize,
        slot: usize,
        at: u32,
        frame: bool,
        exprs: &'a [Expr],
        rest: usize,
    ) -> Result<usize, AllocError>
        requires { slot ≤ length (cells self.old) }
        ensures { IfOk result (λ cell. (s : List Slotted) → IsCellReady (cells self.old) rest →
            IsScope (cells self.old) scope s → AreAnnotated (names s) exprs.now →
            AddsCells (cells self.old) (cells self.new) cell (all_operands s slot
            (expressions_of exprs.now) ++ (operand_uses at slot (count_of
            (expressions_of exprs.now)) ++ call_tasks frame at)) rest) }
    {
        let called = self.called(frame, at, rest)?;
        let cell = self.on_all(scope, slot, at, exprs, called)?;
        Ok(cell)
    }

    /// The operands of an app, and what is after them.
    fn calls(
        &mut self,
        slot: usize,
        at: u32,
        arguments: usize,
        rest: usize,
    ) -> Result<usize, AllocError>
        requires { slot + suc arguments ≤ usize.MAX }
        ensures adds { IfOk result (λ cell. IsCellReady (cells self.old) rest →
            AddsCells (cells self.old) (cells self.new) cell (operand_uses at slot
            (suc arguments) ++ call_tasks true at) rest) }
        ensures more { IfOk result (λ _.
            length (cells self.old) + suc arguments ≤ length (cells self.new)) }
    {
        let second = slot + 1;
        let called = self.called(true, at, rest)?;
        let others = self.takes(at, second, arguments, called)?;
        let cell = self.does(Action::Uses { slot, at }, others)?;
        Ok(cell)
    }

    /// A call.
    fn app(
        &mut self,
        scope: usize,
        slot: usize,
        at: u32,
        callee: &'a Expr,
        exprs: &'a [Expr],
        rest: usize,
    ) -> Result<usize, AllocError>
        requires { slot ≤ length (cells self.old) }
        ensures { IfOk result (λ cell. (s : List Slotted) → IsCellReady (cells self.old) rest →
            IsScope (cells self.old) scope s → IsAnnotated (names s) callee.now →
            AreAnnotated (names s) exprs.now →
            AddsCells (cells self.old) (cells self.new) cell (all_operands s slot (More
            (expr_view callee.now) (expressions_of exprs.now)) ++ (operand_uses at slot (suc (count_of
            (expressions_of exprs.now))) ++ call_tasks true at)) rest) }
    {
        let second = slot + 1;
        let free = second + exprs.len();
        let taken = self.calls(slot, at, exprs.len(), rest)?;
        let first_filled = self.fill_one(scope, free, slot, callee, taken)?;
        let filled = self.fill(scope, free, second, exprs, first_filled)?;
        let first_done = self.wait_one(scope, free, slot, callee, filled)?;
        let cell = self.wait(scope, free, second, exprs, first_done)?;
        Ok(cell)
    }

    /// A use of a name.
    fn used(&mut self, scope: usize, at: u32, name: &Name, rest: usize) -> Result<usize, AllocError>
        ensures { IfOk result (λ cell. (s : List Slotted) → IsCellReady (cells self.old) rest →
            IsScope (cells self.old) scope s →
            AddsCells (cells self.old) (cells self.new) cell (used_at at (slot_of s name.now)) rest) }
    {
        match self.find(scope, name) {
            None => Ok(rest),
            Some(found) => {
                let slot = found.slot;
                self.does(Action::Uses { slot, at }, rest)
            }
        }
    }

    /// A binding by an assignment.
    fn assigned(
        &mut self,
        scope: usize,
        at: u32,
        name: &Name,
        rest: usize,
    ) -> Result<usize, AllocError>
        ensures { IfOk result (λ cell. (s : List Slotted) → IsCellReady (cells self.old) rest →
            IsScope (cells self.old) scope s →
            AddsCells (cells self.old) (cells self.new) cell (bound_at at (type_named
            (names s) name.now) (slot_of s name.now)) rest) }
    {
        match self.find(scope, name) {
            None => Ok(rest),
            Some(found) => {
                let slot = found.slot;
                let address = is_address(found.ty);
                self.does(Action::Binds { slot, address, at }, rest)
            }
        }
    }

    /// An assignment.
    fn assign(
        &mut self,
        scope: usize,
        slot: usize,
        at: u32,
        name: &Name,
        value: &'a Expr,
        rest: usize,
    ) -> Result<usize, AllocError>
        requires { slot ≤ length (cells self.old) }
        ensures { IfOk result (λ cell. (s : List Slotted) → IsCellReady (cells self.old) rest →
            IsScope (cells self.old) scope s → IsAnnotated (names s) value.now →
            AddsCells (cells self.old) (cells self.new) cell (Evaluates s slot
            (expr_view value.now) ∷ bound_at at (type_named (names s) name.now)
            (slot_of s name.now)) rest) }
    {
        let bound = self.assigned(scope, at, name, rest)?;
        let cell = self.eval(scope, slot, value, bound)?;
        Ok(cell)
    }

    /// A test of a bound.
    fn checkbound(
        &mut self,
        scope: usize,
        slot: usize,
        at: u32,
        bound: &'a Expr,
        index: &'a Expr,
        rest: usize,
    ) -> Result<usize, AllocError>
        requires { slot ≤ length (cells self.old) }
        ensures { IfOk result (λ cell. (s : List Slotted) → IsCellReady (cells self.old) rest →
            IsScope (cells self.old) scope s → IsAnnotated (names s) bound.now →
            IsAnnotated (names s) index.now →
            AddsCells (cells self.old) (cells self.new) cell (on_two s slot at
            (expr_view bound.now) (expr_view index.now) ++ (MayRaise ∷ [])) rest) }
    {
        let may_raise = self.may_raise(rest)?;
        let cell = self.on_two(scope, slot, at, bound, index, may_raise)?;
        Ok(cell)
    }

    /// A raise of a value.
    fn raise_value(
        &mut self,
        scope: usize,
        slot: usize,
        at: u32,
        value: &'a Expr,
        rest: usize,
    ) -> Result<usize, AllocError>
        requires { slot ≤ length (cells self.old) }
        ensures { IfOk result (λ cell. (s : List Slotted) → IsCellReady (cells self.old) rest →
            IsScope (cells self.old) scope s → IsAnnotated (names s) value.now →
            AddsCells (cells self.old) (cells self.new) cell (on_one s slot at
            (expr_view value.now) ++ (Raises ∷ [])) rest) }
    {
        let raises = self.raises(rest)?;
        let cell = self.on_one(scope, slot, at, value, raises)?;
        Ok(cell)
    }

    /// One of the two is evaluated.
    fn branches(
        &mut self,
        scope: usize,
        slot: usize,
        on_true: &'a Expr,
        on_false: &'a Expr,
        rest: usize,
    ) -> Result<usize, AllocError>
        requires { slot ≤ length (cells self.old) }
        ensures adds { IfOk result (λ cell. (s : List Slotted) → IsCellReady (cells self.old) rest →
            IsScope (cells self.old) scope s → IsAnnotated (names s) on_true.now →
            IsAnnotated (names s) on_false.now →
            AddsCells (cells self.old) (cells self.new) cell (OneOf s slot
            (expr_view on_true.now ∷ expr_view on_false.now ∷ []) ∷ []) rest) }
        ensures more { IfOk result (λ _. length (cells self.new) ≡ suc (length (cells self.old))) }
    {
        let cell = self.push(Item::Either {
            scope,
            slot,
            on_true,
            on_false,
            rest,
        })?;
        Ok(cell)
    }

    /// A condition, and then one of the two.
    fn either_of(
        &mut self,
        scope: usize,
        slot: usize,
        at: u32,
        condition: &'a Expr,
        on_true: &'a Expr,
        on_false: &'a Expr,
        rest: usize,
    ) -> Result<usize, AllocError>
        requires { slot ≤ length (cells self.old) }
        ensures { IfOk result (λ cell. (s : List Slotted) → IsCellReady (cells self.old) rest →
            IsScope (cells self.old) scope s → IsAnnotated (names s) condition.now →
            IsAnnotated (names s) on_true.now → IsAnnotated (names s) on_false.now →
            AddsCells (cells self.old) (cells self.new) cell (on_one s slot at
            (expr_view condition.now) ++ (OneOf s slot
            (expr_view on_true.now ∷ expr_view on_false.now ∷ []) ∷ [])) rest) }
    {
        let either = self.branches(scope, slot, on_true, on_false, rest)?;
        let cell = self.on_one(scope, slot, at, condition, either)?;
        Ok(cell)
    }

    /// A choice among the cases.
    fn switch(
        &mut self,
        scope: usize,
        slot: usize,
        at: u32,
        selector: &'a Expr,
        cases: &'a [Case],
        rest: usize,
    ) -> Result<usize, AllocError>
        requires { slot ≤ length (cells self.old) }
        ensures { IfOk result (λ cell. (s : List Slotted) → IsCellReady (cells self.old) rest →
            IsScope (cells self.old) scope s →
            IsAnnotated (names s) selector.now → AreCasesAnnotated (names s) cases.now →
            AddsCells (cells self.old) (cells self.new) cell (on_one s slot at
            (expr_view selector.now) ++ (OneOf s slot (bodies (cases_of cases.now)) ∷ [])) rest) }
    {
        let one_of = self.push(Item::OneOf {
            scope,
            slot,
            cases,
            rest,
        })?;
        let cell = self.on_one(scope, slot, at, selector, one_of)?;
        Ok(cell)
    }

    /// An exit.
    fn exits(
        &mut self,
        scope: usize,
        slot: usize,
        at: u32,
        label: &'a Label,
        exprs: &'a [Expr],
        rest: usize,
    ) -> Result<usize, AllocError>
        requires { slot ≤ length (cells self.old) }
        ensures { IfOk result (λ cell. (s : List Slotted) → IsCellReady (cells self.old) rest →
            IsScope (cells self.old) scope s → AreAnnotated (names s) exprs.now →
            AddsCells (cells self.old) (cells self.new) cell (all_operands s slot
            (expressions_of exprs.now) ++ (operand_uses at slot (count_of (expressions_of exprs.now)) ++
            (Exits (label_view label.now) ∷ []))) rest) }
    {
        let exits = self.push(Item::Exits { label, rest })?;
        let cell = self.on_all(scope, slot, at, exprs, exits)?;
        Ok(cell)
    }

    /// The handlers of a catch, of which `left` are left, in a row of cells from `first` on.
    fn handlers(
        &mut self,
        scope: usize,
        slot: usize,
        handlers: &'a [Handler],
        left: &'a [Handler],
        first: usize,
        rest: usize,
    ) -> Result<(), AllocError>
        ensures { IfOk result (λ _. (s : List Slotted) → rest < length (cells self.old) →
            IsScope (cells self.old) scope s →
            AreHandlersAnnotated (names s) left.now →
            AddsHandlers (cells self.old) (cells self.new) scope slot handlers.now first rest s
            left.now) }
    {
        match left {
            [] => Ok(()),
            [own, others @ ..] => {
                self.push(Item::Handler {
                    scope,
                    slot,
                    handlers,
                    own,
                    first,
                    rest,
                })?;
                self.handlers(scope, slot, handlers, others, first, rest)?;
                Ok(())
            }
        }
    }

    /// A body and its handlers.
    fn catch(
        &mut self,
        scope: usize,
        slot: usize,
        body: &'a Expr,
        handlers: &'a [Handler],
        rest: usize,
    ) -> Result<usize, AllocError>
        requires { slot ≤ length (cells self.old) }
        ensures { IfOk result (λ cell. (s : List Slotted) → IsCellReady (cells self.old) rest →
            IsScope (cells self.old) scope s →
            IsAnnotated (names s) body.now → AreHandlersAnnotated (names s) handlers.now →
            AddsCells (cells self.old) (cells self.new) cell (Evaluates s slot
            (expr_view body.now) ∷ Catches s slot false (handlers_of handlers.now) ∷ []) rest) }
    {
        let first = self.len();
        self.handlers(scope, slot, handlers, handlers, first, rest)?;
        let in_handler = false;
        let after_body = self.push(Item::Catches {
            scope,
            slot,
            in_handler,
            handlers,
            first,
            rest,
        })?;
        let cell = self.eval(scope, slot, body, after_body)?;
        Ok(cell)
    }

    /// What handles a raise.
    fn handling(
        &mut self,
        scope: usize,
        slot: usize,
        name_at: u32,
        name: &'a Name,
        handler: &'a Expr,
        rest: usize,
    ) -> Result<usize, AllocError>
        requires { slot ≤ length (cells self.old) }
        ensures { IfOk result (λ cell. (s : List Slotted) → IsCellReady (cells self.old) rest →
            IsScope (cells self.old) scope s → IsAnnotated (record {
              name = name.now;
              type = ty.Val;
              mutable = false;
            } ∷ names s) handler.now →
            AddsCells (cells self.old) (cells self.new) cell
            (handling s slot name_at name.now (expr_view handler.now)) rest) }
    {
        let next = slot + 1;
        let inner = self.bind(scope, name, Ty::Val, false, slot)?;
        let handled = self.eval(inner, next, handler, rest)?;
        let address = false;
        let at = name_at;
        let cell = self.does(Action::Binds { slot, address, at }, handled)?;
        Ok(cell)
    }

    /// After the body of a try, what handles a raise out of it.
    fn after_try_body(
        &mut self,
        scope: usize,
        slot: usize,
        name_at: u32,
        name: &'a Name,
        handler: &'a Expr,
        rest: usize,
    ) -> Result<usize, AllocError>
        requires { slot ≤ length (cells self.old) }
        ensures { IfOk result (λ cell. (s : List Slotted) → IsCellReady (cells self.old) rest →
            IsScope (cells self.old) scope s → IsAnnotated (record {
              name = name.now;
              type = ty.Val;
              mutable = false;
            } ∷ names s) handler.now →
            AddsCells (cells self.old) (cells self.new) cell (Handles s slot name_at name.now
            (expr_view handler.now) ∷ []) rest) }
    {
        let entry = self.handling(scope, slot, name_at, name, handler, rest)?;
        let cell = self.push(Item::Handles {
            scope,
            slot,
            name_at,
            name,
            handler,
            entry,
            rest,
        })?;
        Ok(cell)
    }

    /// The body of a try, and then what handles a raise out of it.
    fn tried(
        &mut self,
        scope: usize,
        slot: usize,
        body: &'a Expr,
        name_at: u32,
        name: &'a Name,
        handler: &'a Expr,
        rest: usize,
    ) -> Result<usize, AllocError>
        requires { slot ≤ length (cells self.old) }
        ensures { IfOk result (λ cell. (s : List Slotted) → IsCellReady (cells self.old) rest →
            IsScope (cells self.old) scope s → IsAnnotated (names s) body.now →
            IsAnnotated (record {
              name = name.now;
              type = ty.Val;
              mutable = false;
            } ∷ names s) handler.now →
            AddsCells (cells self.old) (cells self.new) cell (Evaluates s slot
            (expr_view body.now) ∷ Handles s slot name_at name.now (expr_view handler.now) ∷ []) rest) }
    {
        let after_body = self.after_try_body(scope, slot, name_at, name, handler, rest)?;
        let cell = self.eval(scope, slot, body, after_body)?;
        Ok(cell)
    }

    /// Bindings of a let, and then its body.
    fn enters(
        &mut self,
        scope: usize,
        slot: usize,
        bindings: &'a [Binding],
        body: &'a Expr,
        rest: usize,
    ) -> Result<usize, AllocError>
        requires { slot ≤ length (cells self.old) }
        ensures { IfOk result (λ cell. (s : List Slotted) → IsCellReady (cells self.old) rest →
            IsScope (cells self.old) scope s →
            AreBindingsAnnotated (names s) bindings.now →
            IsAnnotated (with_bindings (names s) (bindings_of bindings.now)) body.now →
            AddsCells (cells self.old) (cells self.new) cell (Enters s slot
            (bindings_of bindings.now) (expr_view body.now) ∷ []) rest) }
    {
        let cell = self.push(Item::Enters {
            scope,
            slot,
            bindings,
            body,
            rest,
        })?;
        Ok(cell)
    }

    /// The tasks of an expression. The only error is want of memory.
    pub fn form(
        &mut self,
        scope: usize,
        slot: usize,
        expr: &'a Expr,
        rest: usize,
    ) -> Result<usize, AllocError>
        requires { slot ≤ length (cells self.old) }
        ensures { IfOk result (λ cell. (s : List Slotted) → IsCellReady (cells self.old) rest →
            IsScope (cells self.old) scope s → IsAnnotated (names s) expr.now →
            AddsCells (cells self.old) (cells self.new) cell (tasks_of s slot
            (expr_view expr.now)) rest) }
    {
        let at = expr.at;
        match &expr.form {
            Form::Integer(_) | Form::Pointer(_) | Form::Symbol(_) | Form::Nothing => Ok(rest),
            Form::Float { .. } => Ok(rest),
            Form::Name(name) => self.used(scope, at, name, rest),
            Form::Let(bindings, body) => self.enters(scope, slot, bindings.as_slice(), body, rest),
            Form::Assign { name, value, .. } => self.assign(scope, slot, at, name, value, rest),
            Form::Operator(_, left, right) => self.on_two(scope, slot, at, left, right, rest),
            Form::Load(_, address) => self.on_one(scope, slot, at, address, rest),
            Form::Store(_, address, value) => self.on_two(scope, slot, at, address, value, rest),
            Form::Alloc { operands, .. } => self.alloc(scope, slot, at, operands.as_slice(), rest),
            Form::App {
                callee,
                arguments,
                ..
            } => self.app(scope, slot, at, callee, arguments.as_slice(), rest),
            Form::Extcall {
                frame,
                arguments,
                ..
            } => self.extcall(scope, slot, at, *frame, arguments.as_slice(), rest),
            Form::Checkbound(bound, index) => self.checkbound(scope, slot, at, bound, index, rest),
            Form::Raise(value) => self.raise_value(scope, slot, at, value, rest),
            Form::Seq(elements) => self.in_order(scope, slot, elements.as_slice(), rest),
            Form::If(condition, on_true, on_false) => {
                self.either_of(scope, slot, at, condition, on_true, on_false, rest)
            }
            Form::Switch {
                selector,
                cases,
                ..
            } => self.switch(scope, slot, at, selector, cases.as_slice(), rest),
            Form::Catch(body, handlers) => self.catch(scope, slot, body, handlers.as_slice(), rest),
            Form::Exit {
                label,
                arguments,
                ..
            } => self.exits(scope, slot, at, label, arguments.as_slice(), rest),
            Form::Try {
                body,
                name_at,
                name,
                handler,
            } => self.tried(scope, slot, body, *name_at, name, handler, rest),
        }
    }
}
