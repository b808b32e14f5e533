//! Bindings of a let.
ghost use Rattle.std.specs.Prelude.{◌≡◌, IfOk};
ghost use Rattle.cmm_meaning.specs.Evaluation as evaluation;
ghost use Rattle.eval_frames.specs.Filled.{bindings_from};
ghost use Rattle.cmm_eval.specs.Stands.{stands_in, goes_on_in};
ghost use Rattle.cmm_eval.specs.Turns.{TurnsFall};

use crate::machine::Machine;
use cmm_tree::{Binding, Form};
use eval_frames::frame::{Now, Step};
use std::alloc::AllocError;

impl<'a> Machine<'a> {
    /// Bindings from here on, one after the other.
    pub(crate) fn bind_next(
        &mut self,
        form: &'a Form,
        tail: bool,
        bindings: &'a [Binding],
    ) -> Result<Now<'a>, AllocError>
        ensures meaning { IfOk result (λ now. (s : evaluation.Surroundings) →
            stands_in s self.new now ≡ goes_on_in s self.old (λ h w.
            bindings_from s bindings.entry.now h w)) }
        ensures falls { IfOk result (λ now. TurnsFall 3 self.old self.new now) }
    {
        match bindings.split_first() {
            None => Ok(Now::Gives(None)),
            Some((binding, _)) => {
                self.push(form, tail, Step::Bindings(bindings))?;
                Ok(Now::Begins {
                    expr: &binding.value,
                    tail: false,
                })
            }
        }
    }
}
