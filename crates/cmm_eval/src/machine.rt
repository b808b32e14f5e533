//! The machine: an activation, the world, and what is still to be done.
ghost use Rattle.std.specs.Prelude.{◌≡◌, ◌^◌, ◌<◌, ◌+◌, ◌++◌, ◌∷◌, [], IfOk};
ghost use Rattle.eval_frames.specs.Views.{here_view, world_view};
ghost use Rattle.eval_frames.specs.Groups.{evaluation_group};
ghost use Rattle.eval_frames.specs.Held.{inside};
ghost use Rattle.eval_frames.specs.declared.frame.Step.{Step};
ghost use Rattle.eval_frames.specs.Filled.{HasEnded, evaluated_expression, standing, fills_frame};
ghost use Rattle.eval_frames.specs.Around.{IsAround, around_view};
ghost use Rattle.cmm_eval.specs.Stands.{stands, goes_on};
ghost use Rattle.cmm_eval.specs.Turns.{TurnsFall, turns};

use bs_words::Kind;
use cmm_tree::{Expr, Form};
use eval_frames::around::Surroundings;
use eval_frames::frame::{Frame, Now, Step};
use eval_frames::given::not_proper;
use eval_frames::group::{EvaluationGroup, group_of};
use eval_frames::here::Here;
use eval_frames::operands::operands_of;
use eval_frames::world::{Stop, World};
use std::alloc::AllocError;

/// A run that has come so far.
#[derive(Drop)]
pub(crate) struct Machine<'a> {
    pub(crate) here: Here<'a>,
    pub(crate) world: World<'a>,
    /// What is still to be done, the innermost last.
    pub(crate) frames: Vec<Frame<'a>>,
}

impl<'a> Machine<'a> {
    /// Evaluates to the end, and answers how that came.
    ///
    /// A turn in which a node begins takes a unit and adds at most three frames. Any other takes a frame away, and adds
    /// none, or at most two where a node begins next. So the units bound the turns. The error is want of memory; a stack
    /// or a heap of 2^64 bytes or more is answered so too.
    #[tactic(auto, using(crate::proofs::Resumed::resume_push, crate::proofs::Resumed::resume_stops))]
    pub(crate) fn run(
        &mut self,
        around: &Surroundings<'a>,
        first: Now<'a>,
    ) -> Result<Now<'a>, AllocError>
        requires { IsAround around.now }
        ensures ended { IfOk result (λ end. HasEnded end) }
        ensures end { IfOk result (λ end. standing (around_view around.now) end
            (here_view self.new.here) (world_view self.new.world) ≡ stands around.now self.old
            first.entry) }
    {
        let mut now = first;
        'turns: loop {
            now = match now {
                Now::Begins { expr, tail } => self.begin(around, expr, tail)?,
                Now::Stops(why) => return Ok(Now::Stops(why)),
                ended => match self.frames.pop() {
                    Some(frame) => self.end(around, frame, ended)?,
                    None => return Ok(ended),
                },
            };
        }
    }

    /// A node begins: it takes a unit, and its type is to be tested.
    #[tactic(auto, using(crate::proofs::Resumed::resume_push, crate::proofs::Resumed::resume_stops))]
    fn begin(
        &mut self,
        around: &Surroundings<'a>,
        expr: &'a Expr,
        tail: bool,
    ) -> Result<Now<'a>, AllocError>
        requires { IsAround around.now }
        ensures meaning { IfOk result (λ now. stands around.now self.new now ≡
            goes_on around.now self.old
            (λ h w. evaluated_expression (around_view around.now) expr.entry.now tail h w)) }
        ensures falls { IfOk result (λ now. TurnsFall 0 self.old self.new now) }
    {
        if group_of(&expr.form) == EvaluationGroup::Float {
            return Ok(not_proper(Kind::BadValue));
        }
        if self.world.left == 0 {
            return Ok(Now::Stops(Stop::OutOfFuel));
        }
        self.world.spend();
        self.push(&expr.form, tail, Step::Typed(expr.ty))?;
        self.enter(around, &expr.form, tail)
    }

    /// Adds what is to be done with what comes next.
    pub(crate) fn push(
        &mut self,
        form: &'a Form,
        tail: bool,
        step: Step<'a>,
    ) -> Result<(), AllocError>
        ensures here { IfOk result (λ _. self.new.here ≡ self.old.here) }
        ensures world { IfOk result (λ _. self.new.world ≡ self.old.world) }
        ensures frames { IfOk result (λ _. self.new.frames.items ≡ self.old.frames.items ++ record {
          form =
              form.entry;
          tail = tail;
          step = step.entry;
        } ∷ []) }
        ensures adds { IfOk result (λ _. turns self.new ≡ turns self.old + 1) }
    {
        self.frames.push(Frame { form, tail, step })?;
        Ok(())
    }

    /// Adds a catch that takes so many further exits, whose body or handler comes next.
    pub(crate) fn push_catch(
        &mut self,
        form: &'a Form,
        tail: bool,
        within: bool,
        exits: u64,
        level: usize,
        tries: u64,
    ) -> Result<(), AllocError>
        ensures here { IfOk result (λ _. self.new.here ≡ self.old.here) }
        ensures world { IfOk result (λ _. self.new.world ≡ self.old.world) }
        ensures frames { IfOk result (λ _. self.new.frames.items ≡ self.old.frames.items ++ record {
          form =
              form.entry;
          tail = tail;
          step = Step.Catch within exits level tries;
        } ∷ []) }
        ensures adds { IfOk result (λ _. turns self.new ≡ turns self.old + 1) }
    {
        let step = Step::Catch {
            within,
            turns: exits,
            level,
            tries,
        };
        self.push(form, tail, step)
    }

    /// What a node does once it has taken its unit.
    fn enter(
        &mut self,
        around: &Surroundings<'a>,
        form: &'a Form,
        tail: bool,
    ) -> Result<Now<'a>, AllocError>
        requires around { IsAround around.now }
        requires taken { self.old.world.left + 1 < 2 ^ 64 }
        ensures meaning { IfOk result (λ now. stands around.now self.new now ≡
            goes_on around.now self.old
            (λ h w. inside (around_view around.now) form.entry.now tail h w)) }
        ensures falls { IfOk result (λ now. TurnsFall 4 self.old self.new now) }
    {
        match group_of(form) {
            EvaluationGroup::Float => Ok(not_proper(Kind::BadValue)),
            EvaluationGroup::Leaf => Ok(self.leaf(around, form)),
            EvaluationGroup::One => self.operand(around, form, tail),
            EvaluationGroup::Two => self.operands(around, form, tail),
            EvaluationGroup::Row => self.wait(
                around,
                form,
                tail,
                operands_of(form),
                Vec::new(around.alloc),
            ),
            EvaluationGroup::Sequence => self.sequence(form, tail),
            EvaluationGroup::Scope => self.enter_scope(form, tail),
        }
    }

    /// What a frame makes of how the evaluation in it ended.
    fn end(
        &mut self,
        around: &Surroundings<'a>,
        frame: Frame<'a>,
        ended: Now<'a>,
    ) -> Result<Now<'a>, AllocError>
        requires around { IsAround around.now }
        requires ended { HasEnded ended }
        ensures meaning { IfOk result (λ now. stands around.now self.new now ≡
            goes_on around.now self.old
            (λ h w. fills_frame (around_view around.now) frame.entry (standing
            (around_view around.now) ended.entry h w))) }
        ensures falls { IfOk result (λ now. TurnsFall 3 self.old self.new now) }
    {
        match ended {
            Now::Gives(value) => self.fill(around, frame, value),
            Now::Exits { label, values } => self.leave(around, frame, label, values),
            Now::Raises(value) => self.raise(frame, value),
            Now::Stops(why) => Ok(Now::Stops(why)),
            Now::Begins { .. } => unreachable!(),
        }
    }
}
