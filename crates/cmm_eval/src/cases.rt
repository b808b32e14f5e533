//! Exits and raises, which go through frames to a handler.
ghost use Rattle.std.specs.Prelude.{◌≡◌, IfOk};
ghost use Rattle.cmm_tree.specs.View.{label_view};
ghost use Rattle.cmm_meaning.specs.Evaluation as evaluation;
ghost use Rattle.cmm_meaning.specs.Evaluation.{Exits, Raises};
ghost use Rattle.eval_frames.specs.Filled.{fills_frame};
ghost use Rattle.eval_frames.specs.Around.{IsAround, around_view};
ghost use Rattle.cmm_eval.specs.Stands.{stands, goes_on, stands_in, goes_on_in};
ghost use Rattle.cmm_eval.specs.Turns.{TurnsFall};

use crate::machine::Machine;
use bs_words::{Kind, Ty, Value};
use cmm_tree::{Form, Label};
use eval_frames::around::Surroundings;
use eval_frames::bind::{bind_params, first_misfit};
use eval_frames::cases::{handler_for, handlers_of};
use eval_frames::frame::{Frame, Now, Step};
use eval_frames::given::not_proper;
use std::alloc::AllocError;

impl<'a> Machine<'a> {
    /// What a frame makes of an exit.
    pub(crate) fn leave(
        &mut self,
        around: &Surroundings<'a>,
        frame: Frame<'a>,
        label: &'a Label,
        values: Vec<Value>,
    ) -> Result<Now<'a>, AllocError>
        requires { IsAround around.now }
        ensures meaning { IfOk result (λ now. stands around.now self.new now ≡
            goes_on around.now self.old
            (λ h w. fills_frame (around_view around.now) frame.entry (Exits
            (label_view label.entry.now) values.items h w))) }
        ensures falls { IfOk result (λ now. TurnsFall 3 self.old self.new now) }
    {
        let Frame { form, tail, step } = frame;
        match step {
            Step::Catch {
                within,
                turns,
                level,
                tries,
            } => {
                if turns == 0 {
                    return Ok(Now::Exits { label, values });
                }
                let Some(handler) = handler_for(within, label, handlers_of(form)) else {
                    return Ok(Now::Exits { label, values });
                };
                let params = handler.params.as_slice();
                if let Some(kind) = first_misfit(around.end, params, values.as_slice()) {
                    return Ok(not_proper(kind));
                }
                self.push_catch(form, tail, true, turns - 1, level, tries)?;
                self.push(form, tail, Step::Scope { level, tries })?;
                self.here.back_in(level, tries);
                bind_params(&mut self.here, params, values.as_slice())?;
                Ok(Now::Begins {
                    expr: &handler.body,
                    tail,
                })
            }
            // No exit leaves a function of an accepted file.
            Step::Return { .. } => Ok(not_proper(Kind::BadCall)),
            Step::Typed(_)
            | Step::Scope { .. }
            | Step::Operand
            | Step::First { .. }
            | Step::Second { .. }
            | Step::Elements(_)
            | Step::Bindings(_)
            | Step::Bound { .. }
            | Step::Waiting { .. }
            | Step::Callee { .. }
            | Step::Filling { .. }
            | Step::LateCallee { .. }
            | Step::Try { .. } => Ok(Now::Exits { label, values }),
        }
    }

    /// What a frame makes of a raise.
    pub(crate) fn raise(&mut self, frame: Frame<'a>, value: Value) -> Result<Now<'a>, AllocError>
        ensures meaning { IfOk result (λ now. (s : evaluation.Surroundings) →
            stands_in s self.new now ≡ goes_on_in s self.old (λ h w.
            fills_frame s frame.entry (Raises value h w))) }
        ensures falls { IfOk result (λ now. TurnsFall 3 self.old self.new now) }
    {
        let Frame { form, tail, step } = frame;
        match step {
            Step::Try { level, tries } => match form {
                Form::Try { name, handler, .. } => {
                    self.here.back_in(level, tries);
                    let level = self.here.names.len();
                    self.push(form, tail, Step::Scope { level, tries })?;
                    self.here.bind(name, Ty::Val, false, value)?;
                    Ok(Now::Begins {
                        expr: handler,
                        tail,
                    })
                }
                Form::Integer(_)
                | Form::Pointer(_)
                | Form::Symbol(_)
                | Form::Name(_)
                | Form::Nothing
                | Form::Float { .. }
                | Form::Let(_, _)
                | Form::Assign { .. }
                | Form::Operator(_, _, _)
                | Form::Load(_, _)
                | Form::Store(_, _, _)
                | Form::Alloc { .. }
                | Form::App { .. }
                | Form::Extcall { .. }
                | Form::Checkbound(_, _)
                | Form::Raise(_)
                | Form::Seq(_)
                | Form::If(_, _, _)
                | Form::Switch { .. }
                | Form::Catch(_, _)
                | Form::Exit { .. } => Ok(not_proper(Kind::BadValue)),
            },
            Step::Return { here, .. } => {
                self.here = here;
                Ok(Now::Raises(value))
            }
            Step::Typed(_)
            | Step::Scope { .. }
            | Step::Operand
            | Step::First { .. }
            | Step::Second { .. }
            | Step::Elements(_)
            | Step::Bindings(_)
            | Step::Bound { .. }
            | Step::Waiting { .. }
            | Step::Callee { .. }
            | Step::Filling { .. }
            | Step::LateCallee { .. }
            | Step::Catch { .. } => Ok(Now::Raises(value)),
        }
    }
}
