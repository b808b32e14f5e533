//! Cells for the tasks of a walk.
ghost use Rattle.std.specs.Prelude.{◌≡◌, ◌∷◌, ◌+◌, ◌≤◌, suc, [], List, IfOk, length, cond};
ghost use Rattle.cmm_tree.specs.View.{expr_view, params_view};
ghost use Rattle.cmm_types.specs.Annotated.{IsAnnotated};
ghost use Rattle.cmm_types.specs.Light.{is_light_address};
ghost use Rattle.cmm_types.specs.Lists.{AreAnnotated, AreBindingsAnnotated};
ghost use Rattle.cmm_tree.specs.Rows.{expressions_of, bindings_of};
ghost use Rattle.cmm_types.specs.Types.{with_bindings};
ghost use Rattle.walk_tables.specs.Walks.{Slotted, Does, Evaluates, names, operand, operand_uses, waiting, filled_slots};
ghost use Rattle.walk_tables.specs.Walks.{all_operands, tasks_in_order, parameters_bound, entering};
ghost use Rattle.walk_tables.specs.Cells.{cells, event_of};
ghost use Rattle.walk_tables.specs.Sound.{IsCellReady, IsScope, AddsCells};

use crate::items::{Action, Cells, Item};
use cmm_tree::{Binding, Expr, Param};
use cmm_types::{is_address, is_mutable, type_bound};
use std::alloc::AllocError;

impl<'a> Cells<'a> {
    /// The event comes. The only error is want of memory.
    pub fn does(&mut self, action: Action, rest: usize) -> Result<usize, AllocError>
        ensures adds { IfOk result (λ cell. IsCellReady (cells self.old) rest →
            AddsCells (cells self.old) (cells self.new) cell (Does (event_of action) ∷ []) rest) }
        ensures more { IfOk result (λ _. length (cells self.new) ≡ suc (length (cells self.old))) }
    {
        let cell = self.push(Item::Does { action, rest })?;
        Ok(cell)
    }

    /// The expression is evaluated in this scope, with the slots from this one on free.
    /// The only error is want of memory.
    pub fn eval(
        &mut self,
        scope: usize,
        slot: usize,
        expr: &'a Expr,
        rest: usize,
    ) -> Result<usize, AllocError>
        ensures { IfOk result (λ cell. (s : List Slotted) → IsCellReady (cells self.old) rest →
            IsScope (cells self.old) scope s → IsAnnotated (names s) expr.now →
            slot ≤ length (cells self.old) →
            AddsCells (cells self.old) (cells self.new) cell (Evaluates s slot
            (expr_view expr.now) ∷ []) rest) }
    {
        let cell = self.push(Item::Evaluates {
            scope,
            slot,
            expr,
            rest,
        })?;
        Ok(cell)
    }

    /// An operand is evaluated, with the slots from `free` on, and bound to its own slot.
    fn operand(
        &mut self,
        scope: usize,
        free: usize,
        slot: usize,
        expr: &'a Expr,
        rest: usize,
    ) -> Result<usize, AllocError>
        ensures { IfOk result (λ cell. (s : List Slotted) → IsCellReady (cells self.old) rest →
            IsScope (cells self.old) scope s → IsAnnotated (names s) expr.now →
            free ≤ length (cells self.old) →
            AddsCells (cells self.old) (cells self.new) cell (operand s free slot
            (expr_view expr.now)) rest) }
    {
        let address = is_address(expr.ty);
        let at = expr.at;
        let bound = self.does(Action::Binds { slot, address, at }, rest)?;
        let cell = self.eval(scope, free, expr, bound)?;
        Ok(cell)
    }

    /// The operation at this place takes so many operands, the first of them in this slot.
    /// The only error is want of memory.
    pub fn takes(
        &mut self,
        at: u32,
        slot: usize,
        count: usize,
        rest: usize,
    ) -> Result<usize, AllocError>
        requires { slot + count ≤ usize.MAX }
        ensures adds { IfOk result (λ cell. IsCellReady (cells self.old) rest →
            AddsCells (cells self.old) (cells self.new) cell (operand_uses at slot count) rest) }
        ensures more { IfOk result (λ _.
            length (cells self.old) + count ≤ length (cells self.new)) }
    {
        if count == 0 {
            return Ok(rest);
        }
        let next = slot + 1;
        let others = self.takes(at, next, count - 1, rest)?;
        let cell = self.does(Action::Uses { slot, at }, others)?;
        Ok(cell)
    }

    /// An operand, unless it is a light address. The only error is want of memory.
    pub fn wait_one(
        &mut self,
        scope: usize,
        free: usize,
        slot: usize,
        expr: &'a Expr,
        rest: usize,
    ) -> Result<usize, AllocError>
        ensures { IfOk result (λ cell. (s : List Slotted) → IsCellReady (cells self.old) rest →
            IsScope (cells self.old) scope s → IsAnnotated (names s) expr.now →
            free ≤ length (cells self.old) →
            AddsCells (cells self.old) (cells self.new) cell (cond (is_light_address
            (names s) (expr_view expr.now)) [] (operand s free slot (expr_view expr.now))) rest) }
    {
        if self.is_light_address(scope, expr) {
            return Ok(rest);
        }
        let cell = self.operand(scope, free, slot, expr, rest)?;
        Ok(cell)
    }

    /// An operand, if it is a light address. The only error is want of memory.
    pub fn fill_one(
        &mut self,
        scope: usize,
        free: usize,
        slot: usize,
        expr: &'a Expr,
        rest: usize,
    ) -> Result<usize, AllocError>
        ensures { IfOk result (λ cell. (s : List Slotted) → IsCellReady (cells self.old) rest →
            IsScope (cells self.old) scope s → IsAnnotated (names s) expr.now →
            free ≤ length (cells self.old) →
            AddsCells (cells self.old) (cells self.new) cell (cond (is_light_address
            (names s) (expr_view expr.now)) (operand s free slot (expr_view expr.now)) []) rest) }
    {
        if self.is_light_address(scope, expr) {
            let cell = self.operand(scope, free, slot, expr, rest)?;
            return Ok(cell);
        }
        Ok(rest)
    }

    /// The operands that are no light addresses, right to left. The only error is want of memory.
    pub fn wait(
        &mut self,
        scope: usize,
        free: usize,
        slot: usize,
        exprs: &'a [Expr],
        rest: usize,
    ) -> Result<usize, AllocError>
        requires { slot + length exprs.now ≤ free }
        ensures { IfOk result (λ cell. (s : List Slotted) → IsCellReady (cells self.old) rest →
            IsScope (cells self.old) scope s → AreAnnotated (names s) exprs.now →
            free ≤ length (cells self.old) →
            AddsCells (cells self.old) (cells self.new) cell (waiting s free slot
            (expressions_of exprs.now)) rest) }
    {
        match exprs {
            [] => Ok(rest),
            [first, others @ ..] => {
                let next = slot + 1;
                let here = self.wait_one(scope, free, slot, first, rest)?;
                let cell = self.wait(scope, free, next, others, here)?;
                Ok(cell)
            }
        }
    }

    /// The light addresses, right to left. The only error is want of memory.
    pub fn fill(
        &mut self,
        scope: usize,
        free: usize,
        slot: usize,
        exprs: &'a [Expr],
        rest: usize,
    ) -> Result<usize, AllocError>
        requires { slot + length exprs.now ≤ free }
        ensures { IfOk result (λ cell. (s : List Slotted) → IsCellReady (cells self.old) rest →
            IsScope (cells self.old) scope s → AreAnnotated (names s) exprs.now →
            free ≤ length (cells self.old) →
            AddsCells (cells self.old) (cells self.new) cell (filled_slots s free slot
            (expressions_of exprs.now)) rest) }
    {
        match exprs {
            [] => Ok(rest),
            [first, others @ ..] => {
                let next = slot + 1;
                let here = self.fill_one(scope, free, slot, first, rest)?;
                let cell = self.fill(scope, free, next, others, here)?;
                Ok(cell)
            }
        }
    }

    /// All operands, the first of them in this slot. The only error is want of memory.
    pub fn all_operands(
        &mut self,
        scope: usize,
        slot: usize,
        exprs: &'a [Expr],
        rest: usize,
    ) -> Result<usize, AllocError>
        requires { slot + length exprs.now ≤ usize.MAX }
        ensures { IfOk result (λ cell. (s : List Slotted) → IsCellReady (cells self.old) rest →
            IsScope (cells self.old) scope s → AreAnnotated (names s) exprs.now →
            slot + length exprs.now ≤ length (cells self.old) →
            AddsCells (cells self.old) (cells self.new) cell (all_operands s slot
            (expressions_of exprs.now)) rest) }
    {
        let free = slot + exprs.len();
        let filled = self.fill(scope, free, slot, exprs, rest)?;
        let cell = self.wait(scope, free, slot, exprs, filled)?;
        Ok(cell)
    }

    /// One expression after the other. The only error is want of memory.
    pub fn in_order(
        &mut self,
        scope: usize,
        slot: usize,
        exprs: &'a [Expr],
        rest: usize,
    ) -> Result<usize, AllocError>
        requires { slot ≤ length (cells self.old) }
        ensures { IfOk result (λ cell. (s : List Slotted) → IsCellReady (cells self.old) rest →
            IsScope (cells self.old) scope s → AreAnnotated (names s) exprs.now →
            AddsCells (cells self.old) (cells self.new) cell (tasks_in_order s slot
            (expressions_of exprs.now)) rest) }
    {
        match exprs {
            [] => Ok(rest),
            [first, others @ ..] => {
                let later = self.in_order(scope, slot, others, rest)?;
                let cell = self.eval(scope, slot, first, later)?;
                Ok(cell)
            }
        }
    }

    /// Parameters are bound at their names. The only error is want of memory.
    pub fn parameters_bound(
        &mut self,
        slot: usize,
        params: &[Param],
        rest: usize,
    ) -> Result<usize, AllocError>
        requires { slot + length params.now ≤ usize.MAX }
        ensures { IfOk result (λ cell. IsCellReady (cells self.old) rest →
            AddsCells (cells self.old) (cells self.new) cell (parameters_bound slot
            (params_view params.now)) rest) }
    {
        match params {
            [] => Ok(rest),
            [first, others @ ..] => {
                let next = slot + 1;
                let later = self.parameters_bound(next, others, rest)?;
                let address = is_address(first.comp.ty());
                let at = first.at;
                let cell = self.does(Action::Binds { slot, address, at }, later)?;
                Ok(cell)
            }
        }
    }

    /// The first binding of a let, and the others in its scope; then the body.
    /// The only error is want of memory.
    pub fn entering(
        &mut self,
        scope: usize,
        slot: usize,
        bindings: &'a [Binding],
        body: &'a Expr,
        rest: usize,
    ) -> Result<usize, AllocError>
        requires { slot ≤ length (cells self.old) }
        ensures { IfOk result (λ cell. (s : List Slotted) → IsCellReady (cells self.old) rest →
            IsScope (cells self.old) scope s →
            AreBindingsAnnotated (names s) bindings.now →
            IsAnnotated (with_bindings (names s) (bindings_of bindings.now)) body.now →
            AddsCells (cells self.old) (cells self.new) cell (entering s slot
            (bindings_of bindings.now) (expr_view body.now)) rest) }
    {
        match bindings {
            [] => {
                let cell = self.eval(scope, slot, body, rest)?;
                Ok(cell)
            }
            [first, others @ ..] => {
                let cell = self.enter_one(scope, slot, first, others, body, rest)?;
                Ok(cell)
            }
        }
    }

    /// A binding of a let, and the others in its scope; then the body.
    fn enter_one(
        &mut self,
        scope: usize,
        slot: usize,
        first: &'a Binding,
        others: &'a [Binding],
        body: &'a Expr,
        rest: usize,
    ) -> Result<usize, AllocError>
        requires { slot ≤ length (cells self.old) }
        ensures { IfOk result (λ cell. (s : List Slotted) → IsCellReady (cells self.old) rest →
            IsScope (cells self.old) scope s →
            AreBindingsAnnotated (names s) (first.now ∷ others.now) →
            IsAnnotated (with_bindings (names s) (bindings_of
            (first.now ∷ others.now))) body.now →
            AddsCells (cells self.old) (cells self.new) cell (entering s slot (bindings_of
            (first.now ∷ others.now)) (expr_view body.now)) rest) }
    {
        let ty = type_bound(first.declared, first.value.ty);
        let mutable = is_mutable(first.declared);
        let next = slot + 1;
        let inner = self.bind(scope, &first.name, ty, mutable, slot)?;
        let later = self.push(Item::Enters {
            scope: inner,
            slot: next,
            bindings: others,
            body,
            rest,
        })?;
        let address = is_address(ty);
        let at = first.at;
        let bound = self.does(Action::Binds { slot, address, at }, later)?;
        let cell = self.eval(scope, slot, &first.value, bound)?;
        Ok(cell)
    }
}
