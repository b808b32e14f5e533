//! What a node does once all its operands are there: calls among others.
ghost use Rattle.std.specs.Prelude.{◌≡◌, ℕ, ◌+◌, ◌≤◌, true, false, IfOk, Some, reverse, IsTrue, IsFalse};
ghost use Rattle.bs_words.specs.Memory.{allocated, next_block};
ghost use Rattle.cmm_meaning.specs.Evaluation as evaluation;
ghost use Rattle.cmm_meaning.specs.Evaluation.{Gives, proper, applied, stack_below};
ghost use Rattle.cmm_meaning.specs.Run.{answered_as};
ghost use Rattle.eval_frames.specs.Outside.{call_seen, returned};
ghost use Rattle.eval_frames.specs.Filled.{operated_by};
ghost use Rattle.eval_frames.specs.Passing.{ComesBack, TakesPlace};
ghost use Rattle.eval_frames.specs.Views.{here_view, layout_view, call_view};
ghost use Rattle.eval_frames.specs.Around.{IsAround, around_view, activated_held};
ghost use Rattle.cmm_eval.specs.Stands.{stands, goes_on, stands_in, goes_on_in};
ghost use Rattle.cmm_eval.specs.Turns.{TurnsFall, turns};

use crate::machine::Machine;
use bs_words::{Call, Kind, Name, Ret, Value};
use cmm_tree::{Form, Function};
use eval_frames::around::Surroundings;
use eval_frames::bind::fit_parameters;
use eval_frames::calls::{activation, frame_ended, shown};
use eval_frames::frame::{Now, Step};
use eval_frames::given::not_proper;
use eval_frames::here::Here;
use eval_frames::tests::Tests;
use eval_frames::world::Stop;
use std::alloc::{AllocError, Global};

/// A function that is called, and the bytes of its frame.
#[derive(Clone, Copy)]
struct Callee<'a> {
    function: &'a Function,
    frame: u64,
}

impl<'a> Machine<'a> {
    /// What a node with a row of operands does with their values, last to first.
    pub(crate) fn operate(
        &mut self,
        around: &Surroundings<'a>,
        form: &'a Form,
        tail: bool,
        callee: Option<Value>,
        mut values: Vec<Value>,
    ) -> Result<Now<'a>, AllocError>
        requires { IsAround around.now }
        ensures meaning { IfOk result (λ now. stands around.now self.new now ≡
            goes_on around.now self.old
            (λ h w. operated_by (around_view around.now) form.entry.now tail callee
            (reverse values.items) h w)) }
        ensures falls { IfOk result (λ now. TurnsFall 3 self.old self.new now) }
    {
        match form {
            Form::Alloc { header, .. } => {
                values.reverse();
                self.allocate(*header, values)
            }
            Form::App {
                callee: late,
                result,
                ..
            } => match callee {
                // The callee was evaluated before the arguments that have waited, or is now.
                Some(callee) => {
                    values.reverse();
                    self.apply(around, form, tail, callee, values, *result)
                }
                None => {
                    self.push(form, tail, Step::LateCallee { values })?;
                    Ok(Now::Begins {
                        expr: late,
                        tail: false,
                    })
                }
            },
            Form::Extcall {
                frame,
                name,
                result,
                ..
            } => {
                values.reverse();
                self.call_outside(around, *frame, name, values.as_slice(), *result)
            }
            Form::Exit { label, .. } => {
                values.reverse();
                Ok(Now::Exits { label, values })
            }
            Form::Integer(_)
            | Form::Pointer(_)
            | Form::Symbol(_)
            | Form::Name(_)
            | Form::Nothing
            | Form::Float { .. }
            | Form::Let(_, _)
            | Form::Assign { .. }
            | Form::Operator(_, _, _)
            | Form::Load(_, _)
            | Form::Store(_, _, _)
            | Form::Checkbound(_, _)
            | Form::Raise(_)
            | Form::Seq(_)
            | Form::If(_, _, _)
            | Form::Switch { .. }
            | Form::Catch(_, _)
            | Form::Try { .. } => Ok(not_proper(Kind::BadValue)),
        }
    }

    fn allocate(&mut self, header: u64, cells: Vec<Value>) -> Result<Now<'a>, AllocError>
        ensures meaning { IfOk result (λ now. (s : evaluation.Surroundings) →
            stands_in s self.new now ≡ goes_on_in s self.old (λ h w.
            proper (allocated w.memory header cells.items) w (λ memory.
            Gives (Some (next_block w.memory)) h (record w { memory = memory })))) }
        ensures falls { IfOk result (λ now. TurnsFall 3 self.old self.new now) }
    {
        match self.world.memory.allocate(header, cells)? {
            Ok(pointer) => Ok(Now::Gives(Some(pointer))),
            Err(kind) => Ok(not_proper(kind)),
        }
    }

    /// A call of a value, which must be a function with parameters that the arguments fit.
    pub(crate) fn apply(
        &mut self,
        around: &Surroundings<'a>,
        form: &'a Form,
        tail: bool,
        callee: Value,
        arguments: Vec<Value>,
        written: Ret,
    ) -> Result<Now<'a>, AllocError>
        requires { IsAround around.now }
        ensures meaning { IfOk result (λ now. stands around.now self.new now ≡
            goes_on around.now self.old
            (λ h w. applied (around_view around.now) callee arguments.items written tail h w)) }
        ensures falls { IfOk result (λ now. TurnsFall 3 self.old self.new now) }
    {
        let Value::Function(number) = callee else {
            return Ok(not_proper(Kind::BadCall));
        };
        let Some(function) = around.functions.get(number as usize) else {
            return Ok(not_proper(Kind::BadCall));
        };
        let arguments = arguments.as_slice();
        if !fit_parameters(around.end, function.params.as_slice(), arguments) {
            return Ok(not_proper(Kind::BadCall));
        }
        let callee = Callee {
            function,
            frame: around.layout.frame_of(number),
        };
        self.activate(around.alloc, form, tail, callee, arguments, written)
    }

    /// A call of a function with a frame of so many bytes. The error is want of memory; a stack of 2^64
    /// bytes or more is answered so too.
    fn activate(
        &mut self,
        alloc: Global,
        form: &'a Form,
        tail: bool,
        callee: Callee<'a>,
        arguments: &[Value],
        written: Ret,
    ) -> Result<Now<'a>, AllocError>
        ensures meaning { IfOk result (λ now. (s : evaluation.Surroundings) →
            stands_in s self.new now ≡ goes_on_in s self.old (λ h w.
            returned written h (activated_held s callee.entry.frame
            (Some callee.entry.function.now) arguments.now (stack_below tail h) w))) }
        ensures falls { IfOk result (λ now. TurnsFall 3 self.old self.new now) }
    {
        let below = self.here.stack_below(tail)?;
        let taken = below.checked_add(callee.frame).ok_or(AllocError)?;
        let inner = activation(alloc, callee.function, below, callee.frame, arguments)?;
        self.world.deepen(taken);
        let here = std::mem::replace(&mut self.here, inner);
        self.come_back(form, tail, here, written)?;
        Ok(Now::Begins {
            expr: &callee.function.body,
            tail: true,
        })
    }

    /// What comes next is a callee, which comes back to this activation; or it takes the place of its
    /// caller, and comes back to where that one would.
    fn come_back(
        &mut self,
        form: &'a Form,
        tail: bool,
        here: Here<'a>,
        written: Ret,
    ) -> Result<(), AllocError>
        ensures here { IfOk result (λ _. self.new.here ≡ self.old.here) }
        ensures world { IfOk result (λ _. self.new.world ≡ self.old.world) }
        ensures frames { IfOk result (λ _. ComesBack self.old.frames.items written
            (here_view here.entry) self.new.frames.items) }
        ensures adds { IfOk result (λ _. turns self.new ≤ turns self.old + 1) }
    {
        let tests = Tests::written(written);
        if tail && self.take_place(tests) {
            return Ok(());
        }
        self.push(form, tail, Step::Return { here, tests })
    }

    /// Lets a callee take the place of its caller, where only tests would follow in the caller: what it
    /// gives meets these tests first, and then those of the caller.
    fn take_place(&mut self, tests: Tests) -> bool
        ensures here { self.new.here ≡ self.old.here }
        ensures world { self.new.world ≡ self.old.world }
        ensures place { IsTrue result →
            TakesPlace self.old.frames.items tests self.new.frames.items }
        ensures none { IsFalse result → self.new.frames.items ≡ self.old.frames.items }
        ensures adds { turns self.new ≤ turns self.old }
    {
        let mut before = tests;
        let mut left = self.frames.len();
        while left > 0 {
            left -= 1;
            match self.frames[left].step.tests() {
                Some(after) => before = before.then(after),
                None => {
                    let Step::Return { tests: after, .. } = &mut self.frames[left].step else {
                        return false;
                    };
                    *after = before.then(*after);
                    self.frames.truncate(left + 1);
                    return true;
                }
            }
        }
        false
    }

    /// An external call.
    fn call_outside(
        &mut self,
        around: &Surroundings<'a>,
        frame: bool,
        name: &'a Name,
        arguments: &[Value],
        written: Ret,
    ) -> Result<Now<'a>, AllocError>
        requires { IsAround around.now }
        ensures meaning { IfOk result (λ now. stands around.now self.new now ≡
            goes_on around.now self.old
            (λ h w. returned written h (answered_as frame
            (around_view around.now).end written (call_seen
            (layout_view around.now.layout.now) name.entry.now arguments.now) w.answers w))) }
        ensures falls { IfOk result (λ now. TurnsFall 3 self.old self.new now) }
    {
        let call = Call {
            name: Name::from_vec(Vec::from_slice(around.alloc, name.as_bytes())?),
            args: shown(around.alloc, around.layout, arguments)?,
        };
        if frame {
            self.frame_call(around.end, call, written)
        } else {
            self.plain_call(call, written)
        }
    }

    /// A call that is no frame call: one without a result takes no answer, each other one the next.
    fn plain_call(&mut self, call: Call, written: Ret) -> Result<Now<'a>, AllocError>
        ensures meaning { IfOk result (λ now. (s : evaluation.Surroundings) → (end : ℕ) →
            stands_in s self.new now ≡ goes_on_in s self.old (λ h w.
            returned written h (answered_as false end written (call_view call) w.answers w))) }
        ensures falls { IfOk result (λ now. TurnsFall 3 self.old self.new now) }
    {
        match written {
            Ret::Unit => {
                self.world.made.push(call)?;
                Ok(Now::Gives(None))
            }
            Ret::Comp(_) => match self.world.answers.split_first() {
                None => Ok(Now::Stops(Stop::NoAnswer(call))),
                Some((answer, left)) => {
                    self.world.made.push(call)?;
                    self.world.answers = left;
                    Ok(Now::Gives(Some(Value::Word(*answer))))
                }
            },
        }
    }

    /// A frame call takes two answers. It has been made before a value that it raises is tested.
    fn frame_call(&mut self, end: u64, call: Call, written: Ret) -> Result<Now<'a>, AllocError>
        ensures meaning { IfOk result (λ now. (s : evaluation.Surroundings) →
            stands_in s self.new now ≡ goes_on_in s self.old (λ h w.
            returned written h (answered_as true end written (call_view call) w.answers w))) }
        ensures falls { IfOk result (λ now. TurnsFall 3 self.old self.new now) }
    {
        let Some((first, rest)) = self.world.answers.split_first() else {
            return Ok(Now::Stops(Stop::NoAnswer(call)));
        };
        let Some((second, left)) = rest.split_first() else {
            return Ok(Now::Stops(Stop::NoAnswer(call)));
        };
        self.world.made.push(call)?;
        self.world.answers = left;
        Ok(frame_ended(end, written, *first, *second))
    }
}
