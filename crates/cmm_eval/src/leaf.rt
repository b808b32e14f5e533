//! Nodes without parts, and those with one or two operands.
ghost use Rattle.std.specs.Prelude.{◌≡◌, IfOk, false};
ghost use Rattle.eval_frames.specs.Groups.{evaluation_group};
ghost use Rattle.eval_frames.specs.declared.group.EvaluationGroup.{EvaluationGroup};
ghost use Rattle.eval_frames.specs.Views.{here_view, world_view};
ghost use Rattle.eval_frames.specs.Held.{inside};
ghost use Rattle.eval_frames.specs.Filled.{standing};
ghost use Rattle.eval_frames.specs.Around.{IsAround, around_view};
ghost use Rattle.cmm_eval.specs.Stands.{stands, goes_on};
ghost use Rattle.cmm_eval.specs.Turns.{TurnsFall};

use crate::machine::Machine;
use bs_words::Value;
use cmm_tree::Form;
use eval_frames::around::Surroundings;
use eval_frames::frame::{Now, Step};
use eval_frames::given::looked_up;
use eval_frames::light::is_left_first;
use eval_frames::operands::{both_operands, earlier, operand_of};
use std::alloc::AllocError;

impl<'a> Machine<'a> {
    /// A node without parts.
    pub(crate) fn leaf(&self, around: &Surroundings<'a>, form: &'a Form) -> Now<'a>
        requires around { IsAround around.now }
        requires leaf { evaluation_group form.now ≡ EvaluationGroup.Leaf }
        ensures { standing (around_view around.now) result (here_view self.now.here)
            (world_view self.now.world) ≡ inside (around_view around.now) form.entry.now false
            (here_view self.now.here) (world_view self.now.world) }
    {
        match form {
            Form::Integer(word) => Now::Gives(Some(Value::Word(*word))),
            Form::Pointer(word) => Now::Gives(Some(Value::Word(*word))),
            Form::Symbol(name) => looked_up(around.symbols.value_of(name.as_bytes())),
            Form::Name(name) => looked_up(self.here.value_of(name)),
            Form::Nothing => Now::Gives(None),
            Form::Float { .. }
            | Form::Let(_, _)
            | Form::Assign { .. }
            | Form::Operator(_, _, _)
            | Form::Load(_, _)
            | Form::Store(_, _, _)
            | Form::Alloc { .. }
            | Form::App { .. }
            | Form::Extcall { .. }
            | Form::Checkbound(_, _)
            | Form::Raise(_)
            | Form::Seq(_)
            | Form::If(_, _, _)
            | Form::Switch { .. }
            | Form::Catch(_, _)
            | Form::Exit { .. }
            | Form::Try { .. } => unreachable!(),
        }
    }

    /// A node with one operand.
    #[tactic(auto, using(crate::proofs::Resumed::resume_push))]
    pub(crate) fn operand(
        &mut self,
        around: &Surroundings<'a>,
        form: &'a Form,
        tail: bool,
    ) -> Result<Now<'a>, AllocError>
        requires { evaluation_group form.now ≡ EvaluationGroup.One }
        ensures meaning { IfOk result (λ now. stands around.now self.new now ≡
            goes_on around.now self.old
            (λ h w. inside (around_view around.now) form.entry.now tail h w)) }
        ensures falls { IfOk result (λ now. TurnsFall 3 self.old self.new now) }
    {
        let expr = operand_of(form);
        self.push(form, tail, Step::Operand)?;
        Ok(Now::Begins { expr, tail: false })
    }

    /// A node with two operands: the right one comes first, but where it alone is a light address.
    #[tactic(auto, using(crate::proofs::Resumed::resume_push))]
    pub(crate) fn operands(
        &mut self,
        around: &Surroundings<'a>,
        form: &'a Form,
        tail: bool,
    ) -> Result<Now<'a>, AllocError>
        requires { evaluation_group form.now ≡ EvaluationGroup.Two }
        ensures meaning { IfOk result (λ now. stands around.now self.new now ≡
            goes_on around.now self.old
            (λ h w. inside (around_view around.now) form.entry.now tail h w)) }
        ensures falls { IfOk result (λ now. TurnsFall 3 self.old self.new now) }
    {
        let (left, right) = both_operands(form);
        let left_first = is_left_first(&self.here, left, right);
        self.push(form, tail, Step::First { left_first })?;
        Ok(Now::Begins {
            expr: earlier(left_first, left, right),
            tail: false,
        })
    }
}
