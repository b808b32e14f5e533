//! What a frame makes of a value, or of none.
ghost use Rattle.std.specs.Prelude.{◌≡◌, IfOk, None, Some, cond, nat_lt};
ghost use Rattle.bs_words.specs.Operators.{word_in};
ghost use Rattle.bs_words.specs.declared.values.Kind.TheVariants.{SwitchRange};
ghost use Rattle.cmm_meaning.specs.State as state;
ghost use Rattle.cmm_meaning.specs.Choices.{case_for};
ghost use Rattle.cmm_meaning.specs.Evaluation as evaluation;
ghost use Rattle.cmm_meaning.specs.Evaluation.{Gives, Stops, NotProper, proper, chosen};
ghost use Rattle.eval_frames.specs.declared.frame.Step.{Step};
ghost use Rattle.eval_frames.specs.Filled.{standing, cases_ready, WantsValue, does, fills_frame, taken_by, joined_by, body_of, first_bound};
ghost use Rattle.eval_frames.specs.Around.{IsAround, around_view};
ghost use Rattle.cmm_eval.specs.Stands.{stands, goes_on, stands_in, goes_on_in};
ghost use Rattle.cmm_eval.specs.Turns.{TurnsFall};

use crate::machine::Machine;
use bs_words::{Kind, Value};
use cmm_tree::{Binding, Case, Form};
use cmm_values::{apply, condition_of, fits, misfit, word_in};
use eval_frames::around::Surroundings;
use eval_frames::bind::bind_value;
use eval_frames::cases::case_for;
use eval_frames::frame::{Frame, Now, Row, Step};
use eval_frames::given::{checked, given, not_proper, of_type, raised};
use eval_frames::group::{EvaluationGroup, group_of};
use eval_frames::operands::{both_operands, earlier, operands_of};
use std::alloc::AllocError;

// The case of a switch that a number below its size chooses.
fn begin_case<'a>(size: u64, cases: &'a [Case], tail: bool, value: Value) -> Now<'a>
    ensures { (s : evaluation.Surroundings) → (h : state.Here) → (w : state.World) →
        standing s result h w ≡ proper (word_in value) w (λ k.
        cond (nat_lt k size) (chosen (case_for (cases_ready s tail cases.entry.now) k) h w)
        (Stops (NotProper SwitchRange) w)) }
{
    match word_in(value) {
        Err(kind) => not_proper(kind),
        Ok(number) => {
            if number >= size {
                return not_proper(Kind::SwitchRange);
            }
            match case_for(cases, number) {
                Some(case) => Now::Begins {
                    expr: &case.body,
                    tail,
                },
                None => not_proper(Kind::SwitchRange),
            }
        }
    }
}

impl<'a> Machine<'a> {
    /// What a frame makes of a value, or of none.
    pub(crate) fn fill(
        &mut self,
        around: &Surroundings<'a>,
        frame: Frame<'a>,
        value: Option<Value>,
    ) -> Result<Now<'a>, AllocError>
        requires { IsAround around.now }
        ensures meaning { IfOk result (λ now. stands around.now self.new now ≡
            goes_on around.now self.old
            (λ h w. fills_frame (around_view around.now) frame.entry (Gives value h w))) }
        ensures falls { IfOk result (λ now. TurnsFall 3 self.old self.new now) }
    {
        let Frame { form, tail, step } = frame;
        match step {
            Step::Typed(ty) => Ok(of_type(around.end, ty, value)),
            Step::Scope { level, tries } => {
                self.here.back_in(level, tries);
                Ok(Now::Gives(value))
            }
            Step::Try { level, tries } => {
                self.here.back_in(level, tries);
                Ok(Now::Gives(value))
            }
            Step::Catch { .. } => Ok(Now::Gives(value)),
            Step::Elements(rest) => self.elements(form, tail, rest),
            Step::Bound { level, tries } => self.body(form, tail, level, tries),
            Step::Return { here, tests } => {
                self.here = here;
                Ok(tests.meet(around.end, value))
            }
            step => match value {
                Some(value) => self.fill_value(around, Frame { form, tail, step }, value),
                None => Ok(not_proper(Kind::BadValue)),
            },
        }
    }

    // What a frame that wants a value makes of it.
    fn fill_value(
        &mut self,
        around: &Surroundings<'a>,
        frame: Frame<'a>,
        value: Value,
    ) -> Result<Now<'a>, AllocError>
        requires around { IsAround around.now }
        requires wants { WantsValue frame.step }
        ensures meaning { IfOk result (λ now. stands around.now self.new now ≡
            goes_on around.now self.old
            (λ h w. fills_frame (around_view around.now) frame.entry (Gives (Some value) h w))) }
        ensures falls { IfOk result (λ now. TurnsFall 3 self.old self.new now) }
    {
        let Frame { form, tail, step } = frame;
        match step {
            Step::Operand => self.take(around, form, tail, value),
            Step::First { left_first } => self.second(form, tail, left_first, value),
            Step::Second { first, left_first } => {
                if left_first {
                    self.join(form, first, value)
                } else {
                    self.join(form, value, first)
                }
            }
            Step::Bindings(bindings) => self.bound(around, form, tail, bindings, value),
            Step::Waiting { rest, mut values } => {
                values.push(Some(value))?;
                self.wait(around, form, tail, rest, values)
            }
            Step::Callee { waited } => {
                let row = Row {
                    operands: operands_of(form),
                    waited,
                    values: Vec::new(around.alloc),
                };
                self.fill_in(around, form, tail, Some(value), row)
            }
            Step::Filling { callee, mut row } => {
                row.values.push(value)?;
                self.fill_in(around, form, tail, callee, row)
            }
            Step::LateCallee { values } => { self.operate(around, form, tail, Some(value), values) }
            Step::Typed(_) => unreachable!(),
            Step::Scope { .. } => unreachable!(),
            Step::Elements(_) => unreachable!(),
            Step::Bound { .. } => unreachable!(),
            Step::Catch { .. } => unreachable!(),
            Step::Try { .. } => unreachable!(),
            Step::Return { .. } => unreachable!(),
        }
    }

    // What a node with one operand does with its value.
    fn take(
        &mut self,
        around: &Surroundings<'a>,
        form: &'a Form,
        tail: bool,
        value: Value,
    ) -> Result<Now<'a>, AllocError>
        requires { IsAround around.now }
        ensures meaning { IfOk result (λ now. stands around.now self.new now ≡
            goes_on around.now self.old
            (λ h w. taken_by (around_view around.now) form.entry.now tail value h w)) }
        ensures falls { IfOk result (λ now. TurnsFall 3 self.old self.new now) }
    {
        match form {
            Form::Assign { name, .. } => {
                let ty = self.here.type_named(name);
                if !fits(around.end, ty, value) {
                    return Ok(not_proper(misfit(ty)));
                }
                self.here.assign(name, value);
                Ok(Now::Gives(None))
            }
            Form::Load(chunk, _) => Ok(given(self.world.memory.load(*chunk, value))),
            Form::Raise(_) => Ok(raised(around.end, value)),
            Form::If(_, on_true, on_false) => {
                match condition_of(&self.world.memory, value) {
                    Ok(true) => Ok(Now::Begins {
                        expr: on_true,
                        tail,
                    }),
                    Ok(false) => Ok(Now::Begins {
                        expr: on_false,
                        tail,
                    }),
                    Err(kind) => Ok(not_proper(kind)),
                }
            }
            Form::Switch { size, cases, .. } => {
                Ok(begin_case(*size, cases.as_slice(), tail, value))
            }
            Form::Integer(_)
            | Form::Pointer(_)
            | Form::Symbol(_)
            | Form::Name(_)
            | Form::Nothing
            | Form::Float { .. }
            | Form::Let(_, _)
            | Form::Operator(_, _, _)
            | Form::Store(_, _, _)
            | Form::Alloc { .. }
            | Form::App { .. }
            | Form::Extcall { .. }
            | Form::Checkbound(_, _)
            | Form::Seq(_)
            | Form::Catch(_, _)
            | Form::Exit { .. }
            | Form::Try { .. } => Ok(not_proper(Kind::BadValue)),
        }
    }

    // The second of two operands.
    fn second(
        &mut self,
        form: &'a Form,
        tail: bool,
        left_first: bool,
        first: Value,
    ) -> Result<Now<'a>, AllocError>
        ensures meaning { IfOk result (λ now. (s : evaluation.Surroundings) →
            stands_in s self.new now ≡ goes_on_in s self.old (λ h w.
            does s (Step.First left_first) form.entry.now tail (Gives (Some first) h w))) }
        ensures falls { IfOk result (λ now. TurnsFall 3 self.old self.new now) }
    {
        if group_of(form) != EvaluationGroup::Two {
            return Ok(not_proper(Kind::BadValue));
        }
        let (left, right) = both_operands(form);
        let expr = earlier(!left_first, left, right);
        self.push(form, tail, Step::Second { first, left_first })?;
        Ok(Now::Begins { expr, tail: false })
    }

    // What a node with two operands does with their values.
    fn join(&mut self, form: &'a Form, left: Value, right: Value) -> Result<Now<'a>, AllocError>
        ensures meaning { IfOk result (λ now. (s : evaluation.Surroundings) →
            stands_in s self.new now ≡ goes_on_in s self.old (λ h w.
            joined_by s form.entry.now left right h w)) }
        ensures falls { IfOk result (λ now. TurnsFall 3 self.old self.new now) }
    {
        match form {
            Form::Operator(op, _, _) => Ok(given(apply(*op, &self.world.memory, left, right))),
            Form::Store(chunk, _, _) => match self.world.memory.store(*chunk, left, right) {
                Ok(()) => Ok(Now::Gives(None)),
                Err(kind) => Ok(not_proper(kind)),
            },
            Form::Checkbound(_, _) => Ok(checked(left, right)),
            Form::Integer(_)
            | Form::Pointer(_)
            | Form::Symbol(_)
            | Form::Name(_)
            | Form::Nothing
            | Form::Float { .. }
            | Form::Let(_, _)
            | Form::Assign { .. }
            | Form::Load(_, _)
            | Form::Alloc { .. }
            | Form::App { .. }
            | Form::Extcall { .. }
            | Form::Raise(_)
            | Form::Seq(_)
            | Form::If(_, _, _)
            | Form::Switch { .. }
            | Form::Catch(_, _)
            | Form::Exit { .. }
            | Form::Try { .. } => Ok(not_proper(Kind::BadValue)),
        }
    }

    // The first of these bindings has its value: the next one, or the body.
    fn bound(
        &mut self,
        around: &Surroundings<'a>,
        form: &'a Form,
        tail: bool,
        bindings: &'a [Binding],
        value: Value,
    ) -> Result<Now<'a>, AllocError>
        requires { IsAround around.now }
        ensures meaning { IfOk result (λ now. stands around.now self.new now ≡
            goes_on around.now self.old
            (λ h w. first_bound (around_view around.now) bindings.entry.now value h w)) }
        ensures falls { IfOk result (λ now. TurnsFall 3 self.old self.new now) }
    {
        match bindings.split_first() {
            None => Ok(not_proper(Kind::BadValue)),
            Some((binding, rest)) => {
                match bind_value(around.end, &mut self.here, binding, value)? {
                    Some(kind) => Ok(not_proper(kind)),
                    None => self.bind_next(form, tail, rest),
                }
            }
        }
    }

    // The body of a let.
    fn body(
        &mut self,
        form: &'a Form,
        tail: bool,
        level: usize,
        tries: u64,
    ) -> Result<Now<'a>, AllocError>
        ensures meaning { IfOk result (λ now. (s : evaluation.Surroundings) →
            stands_in s self.new now ≡ goes_on_in s self.old (λ h w.
            body_of s form.entry.now tail level tries h w)) }
        ensures falls { IfOk result (λ now. TurnsFall 3 self.old self.new now) }
    {
        match form {
            Form::Let(_, body) => {
                self.push(form, tail, Step::Scope { level, tries })?;
                Ok(Now::Begins { expr: body, tail })
            }
            Form::Integer(_)
            | Form::Pointer(_)
            | Form::Symbol(_)
            | Form::Name(_)
            | Form::Nothing
            | Form::Float { .. }
            | Form::Assign { .. }
            | Form::Operator(_, _, _)
            | Form::Load(_, _)
            | Form::Store(_, _, _)
            | Form::Alloc { .. }
            | Form::App { .. }
            | Form::Extcall { .. }
            | Form::Checkbound(_, _)
            | Form::Raise(_)
            | Form::Seq(_)
            | Form::If(_, _, _)
            | Form::Switch { .. }
            | Form::Catch(_, _)
            | Form::Exit { .. }
            | Form::Try { .. } => Ok(not_proper(Kind::BadValue)),
        }
    }
}
