//! Who holds each colour.
ghost use Rattle.std.specs.Prelude.{◌≡◌, ◌<◌, ℕ, None, Some, cond, nat_eq};
ghost use Rattle.linscan.specs.Held.{holder_in, is_held_in};

use crate::order::OpenRegister;

/// For each of the thirty-two machine registers the register that was put there last, if it was not
/// put out again. It holds it until it has ended: no other was put there before that.
#[derive(Clone, Copy)]
pub struct Active {
    /// By the number of the machine register.
    pub items: [Option<OpenRegister>; 32],
}

impl Active {
    /// Nobody holds a colour.
    pub fn new() -> Self
        ensures { (c : ℕ) → holder_in result c ≡ None }
    {
        Active { items: [None; 32] }
    }

    /// Who was put there last.
    pub fn at(&self, colour: u8) -> Option<OpenRegister>
        ensures { result ≡ holder_in self.now colour }
    {
        match self.items.get(usize::from(colour)) {
            Some(holder) => *holder,
            None => None,
        }
    }

    /// Whether the one there has not ended before the place.
    pub fn is_held(&self, colour: u8, from: u32) -> bool
        ensures { result ≡ is_held_in self.now from colour }
    {
        match self.at(colour) {
            Some(holder) => from <= holder.to,
            None => false,
        }
    }

    /// Puts a register there.
    pub fn hold(&mut self, colour: u8, register: OpenRegister)
        ensures { (c : ℕ) → c < 32 → holder_in self.new c
            ≡ cond (nat_eq c colour) (Some register) (holder_in self.old c) }
    {
        let colour = usize::from(colour);
        if colour < 32 {
            self.items[colour] = Some(register);
        }
    }
}
