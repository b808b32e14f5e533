//! Rows of operands, elements of sequences, and scopes that are entered.
ghost use Rattle.std.specs.Prelude.{◌≡◌, ◌^◌, ◌<◌, ◌+◌, false, IfOk, reverse};
ghost use Rattle.cmm_meaning.specs.State.{taken, within_try, deepened};
ghost use Rattle.eval_frames.specs.Filled.{evaluated_expression, elements_from, waits_for, after_waiting, row_fills};
ghost use Rattle.eval_frames.specs.Groups.{evaluation_group};
ghost use Rattle.eval_frames.specs.Held.{inside};
ghost use Rattle.eval_frames.specs.declared.group.EvaluationGroup.{EvaluationGroup};
ghost use Rattle.eval_frames.specs.Around.{IsAround, around_view};
ghost use Rattle.cmm_eval.specs.Stands.{stands, goes_on, stands_in, goes_on_in};
ghost use Rattle.cmm_eval.specs.Turns.{TurnsFall};
ghost use Rattle.cmm_meaning.specs.Evaluation as evaluation;

use crate::machine::Machine;
use bs_words::Value;
use cmm_tree::{Expr, Form};
use eval_frames::around::Surroundings;
use eval_frames::frame::{Now, Row, Step};
use eval_frames::light::is_light_address;
use eval_frames::operands::{operands_of, prompt_callee};
use std::alloc::AllocError;

impl<'a> Machine<'a> {
    /// A sequence.
    pub(crate) fn sequence(&mut self, form: &'a Form, tail: bool) -> Result<Now<'a>, AllocError>
        requires { evaluation_group form.now ≡ EvaluationGroup.Sequence }
        ensures meaning { IfOk result (λ now. (s : evaluation.Surroundings) →
            stands_in s self.new now ≡ goes_on_in s self.old (λ h w.
            inside s form.entry.now tail h w)) }
        ensures falls { IfOk result (λ now. TurnsFall 3 self.old self.new now) }
    {
        match form {
            Form::Seq(elements) => self.elements(form, tail, elements.as_slice()),
            Form::Integer(_)
            | Form::Pointer(_)
            | Form::Symbol(_)
            | Form::Name(_)
            | Form::Nothing
            | Form::Float { .. }
            | Form::Let(_, _)
            | Form::Assign { .. }
            | Form::Operator(_, _, _)
            | Form::Load(_, _)
            | Form::Store(_, _, _)
            | Form::Alloc { .. }
            | Form::App { .. }
            | Form::Extcall { .. }
            | Form::Checkbound(_, _)
            | Form::Raise(_)
            | Form::If(_, _, _)
            | Form::Switch { .. }
            | Form::Catch(_, _)
            | Form::Exit { .. }
            | Form::Try { .. } => unreachable!(),
        }
    }

    /// The elements of a sequence from here on, the last in tail position where the whole is.
    pub(crate) fn elements(
        &mut self,
        form: &'a Form,
        tail: bool,
        elements: &'a [Expr],
    ) -> Result<Now<'a>, AllocError>
        ensures meaning { IfOk result (λ now. (s : evaluation.Surroundings) →
            stands_in s self.new now ≡ goes_on_in s self.old (λ h w.
            elements_from s elements.entry.now tail h w)) }
        ensures falls { IfOk result (λ now. TurnsFall 3 self.old self.new now) }
    {
        match elements.split_first() {
            None => Ok(Now::Gives(None)),
            Some((expr, rest)) => {
                if rest.is_empty() {
                    return Ok(Now::Begins { expr, tail });
                }
                self.push(form, tail, Step::Elements(rest))?;
                Ok(Now::Begins { expr, tail: false })
            }
        }
    }

    /// A let, a catch or a try, which has taken a unit.
    pub(crate) fn enter_scope(&mut self, form: &'a Form, tail: bool) -> Result<Now<'a>, AllocError>
        requires group { evaluation_group form.now ≡ EvaluationGroup.Scope }
        requires taken { self.old.world.left + 1 < 2 ^ 64 }
        ensures meaning { IfOk result (λ now. (s : evaluation.Surroundings) →
            stands_in s self.new now ≡ goes_on_in s self.old (λ h w.
            inside s form.entry.now tail h w)) }
        ensures falls { IfOk result (λ now. TurnsFall 4 self.old self.new now) }
    {
        let level = self.here.names.len();
        let tries = self.here.tries;
        match form {
            Form::Let(bindings, _) => {
                self.push(form, tail, Step::Bound { level, tries })?;
                self.bind_next(form, tail, bindings.as_slice())
            }
            Form::Catch(body, _) => {
                let turns = self.world.left + 1;
                self.push_catch(form, tail, false, turns, level, tries)?;
                Ok(Now::Begins { expr: body, tail })
            }
            Form::Try { body, .. } => {
                self.push(form, tail, Step::Try { level, tries })?;
                self.begin_try(body)
            }
            Form::Integer(_)
            | Form::Pointer(_)
            | Form::Symbol(_)
            | Form::Name(_)
            | Form::Nothing
            | Form::Float { .. }
            | Form::Assign { .. }
            | Form::Operator(_, _, _)
            | Form::Load(_, _)
            | Form::Store(_, _, _)
            | Form::Alloc { .. }
            | Form::App { .. }
            | Form::Extcall { .. }
            | Form::Checkbound(_, _)
            | Form::Raise(_)
            | Form::Seq(_)
            | Form::If(_, _, _)
            | Form::Switch { .. }
            | Form::Exit { .. } => unreachable!(),
        }
    }

    /// The body of a try begins. A stack of 2^64 bytes or more is answered as want of memory.
    fn begin_try(&mut self, body: &'a Expr) -> Result<Now<'a>, AllocError>
        ensures meaning { IfOk result (λ now. (s : evaluation.Surroundings) →
            stands_in s self.new now ≡ goes_on_in s self.old (λ h w.
            evaluated_expression s body.entry.now false (within_try h) (deepened (taken
            (within_try h)) w))) }
        ensures falls { IfOk result (λ now. TurnsFall 3 self.old self.new now) }
    {
        let bytes = self.here.taken()?.checked_add(16).ok_or(AllocError)?;
        self.here.tries += 1;
        self.world.deepen(bytes);
        Ok(Now::Begins {
            expr: body,
            tail: false,
        })
    }

    /// The operands that are no light addresses, right to left; the others wait. The values so far are
    /// last to first.
    pub(crate) fn wait(
        &mut self,
        around: &Surroundings<'a>,
        form: &'a Form,
        tail: bool,
        operands: &'a [Expr],
        mut values: Vec<Option<Value>>,
    ) -> Result<Now<'a>, AllocError>
        requires { IsAround around.now }
        ensures meaning { IfOk result (λ now. stands around.now self.new now ≡
            goes_on around.now self.old
            (λ h w. waits_for (around_view around.now) form.entry.now tail
            (reverse operands.entry.now) (reverse values.items) h w)) }
        ensures falls { IfOk result (λ now. TurnsFall 3 self.old self.new now) }
    {
        let mut left = operands.len();
        while left > 0 {
            left -= 1;
            let expr = &operands[left];
            if !is_light_address(&self.here, expr) {
                let rest = &operands[..left];
                self.push(form, tail, Step::Waiting { rest, values })?;
                return Ok(Now::Begins { expr, tail: false });
            }
            values.push(None)?;
        }
        values.reverse();
        self.callee(around, form, tail, values)
    }

    /// The callee of a call, unless it waits; then the operands that have waited.
    fn callee(
        &mut self,
        around: &Surroundings<'a>,
        form: &'a Form,
        tail: bool,
        waited: Vec<Option<Value>>,
    ) -> Result<Now<'a>, AllocError>
        requires { IsAround around.now }
        ensures meaning { IfOk result (λ now. stands around.now self.new now ≡
            goes_on around.now self.old
            (λ h w. after_waiting (around_view around.now) form.entry.now tail waited.items h
            w)) }
        ensures falls { IfOk result (λ now. TurnsFall 3 self.old self.new now) }
    {
        match prompt_callee(&self.here, form) {
            Some(expr) => {
                self.push(form, tail, Step::Callee { waited })?;
                Ok(Now::Begins { expr, tail: false })
            }
            None => {
                let row = Row {
                    operands: operands_of(form),
                    waited,
                    values: Vec::new(around.alloc),
                };
                self.fill_in(around, form, tail, None, row)
            }
        }
    }

    /// The operands of the row that have waited, right to left.
    pub(crate) fn fill_in(
        &mut self,
        around: &Surroundings<'a>,
        form: &'a Form,
        tail: bool,
        callee: Option<Value>,
        row: Row<'a>,
    ) -> Result<Now<'a>, AllocError>
        requires { IsAround around.now }
        ensures meaning { IfOk result (λ now. stands around.now self.new now ≡
            goes_on around.now self.old
            (λ h w. row_fills (around_view around.now) form.entry.now tail callee row.entry h w)) }
        ensures falls { IfOk result (λ now. TurnsFall 3 self.old self.new now) }
    {
        let Row {
            operands,
            mut waited,
            mut values,
        } = row;
        let mut left = operands.len();
        while left > 0 {
            left -= 1;
            match waited.pop().flatten() {
                Some(value) => values.push(value)?,
                None => {
                    let row = Row {
                        operands: &operands[..left],
                        waited,
                        values,
                    };
                    self.push(form, tail, Step::Filling { callee, row })?;
                    return Ok(Now::Begins {
                        expr: &operands[left],
                        tail: false,
                    });
                }
            }
        }
        self.operate(around, form, tail, callee, values)
    }
}
