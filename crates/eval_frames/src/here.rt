//! One activation of a function.
ghost use Rattle.std.specs.Prelude.{◌≡◌, ◌∷◌, [], IfOk, option_map, option_copied};
ghost use Rattle.cmm_types.specs.Types.{type_named};
ghost use Rattle.cmm_types.specs.Light.{is_immutable};
ghost use Rattle.cmm_meaning.specs.State.{scope, innermost, value_of, assigned, back_in, taken};
ghost use Rattle.cmm_meaning.specs.Evaluation.{with_bound, stack_below};
ghost use Rattle.cmm_meaning.specs.Run.{nobody};
ghost use Rattle.eval_frames.specs.Views.{bound_view, bounds_view, here_view};

use bs_words::{Name, Ty, Value};
use std::alloc::{AllocError, Global};

/// A name in scope and its value.
#[derive(Drop)]
pub struct Bound<'a> {
    /// The name.
    pub name: &'a Name,
    /// Its type.
    pub ty: Ty,
    /// Whether it may be assigned.
    pub mutable: bool,
    /// The value that it has now.
    pub value: Value,
}

/// An activation.
#[derive(Drop)]
pub struct Here<'a> {
    /// The bindings, the innermost last.
    pub names: Vec<Bound<'a>>,
    /// The stack bytes of the activations and tries that called this one.
    pub below: u64,
    /// The bytes of this activation's frame.
    pub frame: u64,
    /// How many tries it has entered and not left.
    pub tries: u64,
}

/// The innermost binding of a name, which is last among those of its name.
fn innermost<'b, 'a>(names: &'b [Bound<'a>], name: &Name) -> Option<&'b Bound<'a>>
    ensures { option_map bound_view (option_copied result)
        ≡ innermost (bounds_view names.now) name.now }
{
    let mut left = names.len();
    while left > 0 {
        left -= 1;
        let bound = &names[left];
        if bound.name.same(name) {
            return Some(bound);
        }
    }
    None
}

impl<'a> Here<'a> {
    /// No activation: the entry of a run returns to it.
    pub fn nobody(alloc: Global) -> Here<'a>
        ensures { here_view result ≡ nobody }
    {
        Here {
            names: Vec::new(alloc),
            below: 0,
            frame: 0,
            tries: 0,
        }
    }

    /// The stack bytes up to here: a try takes 16. The error is want of memory; a stack of
    /// 2^64 bytes or more is answered so too.
    /// That is no want of memory, but it can happen: frames are handed in, each as any word. The count of
    /// tries has no test of its own, since each adds its 16 bytes to this sum first.
    pub fn taken(&self) -> Result<u64, AllocError>
        ensures { IfOk result (λ bytes. bytes ≡ taken (here_view self.now)) }
    {
        let activation = self.below.checked_add(self.frame).ok_or(AllocError)?;
        let tries = self.tries.checked_mul(16).ok_or(AllocError)?;
        activation.checked_add(tries).ok_or(AllocError)
    }

    /// The stack bytes below a callee: in tail position it takes the place of its caller. The error is
    /// want of memory; a stack of 2^64 bytes or more is answered so too.
    pub fn stack_below(&self, tail: bool) -> Result<u64, AllocError>
        ensures { IfOk result (λ bytes. bytes ≡ stack_below tail (here_view self.now)) }
    {
        if tail { Ok(self.below) } else { self.taken() }
    }

    /// The value of the innermost binding of a name.
    #[tactic(auto, using(crate::proofs::Bounds::value_some, crate::proofs::Bounds::value_none))]
    pub fn value_of(&self, name: &Name) -> Option<Value>
        ensures { result ≡ value_of (here_view self.now).names name.now }
    {
        match innermost(self.names.as_slice(), name) {
            Some(bound) => Some(bound.value),
            None => None,
        }
    }

    /// The type of a name. One that is not bound has type never.
    #[tactic(auto, using(crate::proofs::Bounds::type_some, crate::proofs::Bounds::type_none))]
    pub fn type_named(&self, name: &Name) -> Ty
        ensures { result ≡ type_named (scope (here_view self.now)) name.now }
    {
        match innermost(self.names.as_slice(), name) {
            Some(bound) => bound.ty,
            None => Ty::Never,
        }
    }

    /// Whether the innermost binding of a name is not mutable.
    #[tactic(auto, using(crate::proofs::Bounds::immutable_some, crate::proofs::Bounds::immutable_none))]
    pub fn is_immutable(&self, name: &Name) -> bool
        ensures { result ≡ is_immutable (scope (here_view self.now)) name.now }
    {
        match innermost(self.names.as_slice(), name) {
            Some(bound) => !bound.mutable,
            None => false,
        }
    }

    /// Gives the innermost binding of a name a new value.
    pub fn assign(&mut self, name: &Name, value: Value)
        ensures { here_view self.new ≡ record (here_view self.old) {
          names = assigned
              (here_view self.old).names name.now value;
        } }
    {
        let mut index = self.names.len();
        while index > 0 {
            index -= 1;
            if self.names[index].name.same(name) {
                let bound = &mut self.names[index];
                bound.value = value;
                return;
            }
        }
    }

    /// Binds a name, innermost. The only error is want of memory.
    #[tactic(auto, using(crate::proofs::Bounds::bounds_push))]
    pub fn bind(
        &mut self,
        name: &'a Name,
        ty: Ty,
        mutable: bool,
        value: Value,
    ) -> Result<(), AllocError>
        ensures { IfOk result (λ _. here_view self.new ≡ with_bound (record {
          name = name.now;
          type = ty;
          mutable = mutable;
        } ∷ []) (value ∷ []) (here_view self.old)) }
    {
        self.names.push(Bound {
            name,
            ty,
            mutable,
            value,
        })?;
        Ok(())
    }

    /// Goes back to a scope that had been entered.
    #[tactic(auto, using(crate::proofs::Bounds::bounds_take))]
    pub fn back_in(&mut self, level: usize, tries: u64)
        ensures { here_view self.new ≡ back_in level tries (here_view self.old) }
    {
        self.names.truncate(level);
        self.tries = tries;
    }
}
