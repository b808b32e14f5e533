//! Which colours are closed to a register.
ghost use Rattle.std.specs.Prelude.{◌≡◌, ◌<◌, ◌||◌, ℕ, false, nat_eq};
ghost use Rattle.std.specs.List.{list_any};
ghost use Rattle.colouring.specs.Chosen.{has_colour};
ghost use Rattle.colouring.specs.Tables.{places_by};
ghost use Rattle.linscan.specs.Held.{is_closed_in};

use crate::places::place_at;
use bs_words::Loc;

/// For each of the thirty-two machine registers whether one that is joined with a register is fixed
/// there, so that it is closed to it.
#[derive(Clone, Copy)]
pub struct Closed {
    /// By the number of the machine register.
    pub items: [bool; 32],
}

impl Closed {
    fn none() -> Self
        ensures { (c : ℕ) → is_closed_in result c ≡ false }
    {
        Closed { items: [false; 32] }
    }

    /// Whether the machine register is closed.
    pub fn at(&self, colour: u8) -> bool
        ensures { result ≡ is_closed_in self.now colour }
    {
        match self.items.get(usize::from(colour)) {
            Some(closed) => *closed,
            None => false,
        }
    }

    fn close_register(&mut self, register: u8)
        ensures { (c : ℕ) → c < 32 →
            is_closed_in self.new c ≡ (is_closed_in self.old c || nat_eq register c) }
    {
        let register = usize::from(register);
        if register < 32 {
            self.items[register] = true;
        }
    }

    /// Closes a place. A slot closes nothing.
    fn close(&mut self, place: Loc)
        ensures { (c : ℕ) → c < 32 →
            is_closed_in self.new c ≡ (is_closed_in self.old c || has_colour c place) }
    {
        match place {
            Loc::Unset => {}
            Loc::Machine(register) => self.close_register(register),
            Loc::Slot(_slot) => {}
        }
    }

    /// What is closed where these are joined with a register, by the places that are fixed. The time
    /// is that of the numbers.
    pub fn by(fixed: &[Loc], numbers: &[u32]) -> Self
        ensures { (c : ℕ) → c < 32 → is_closed_in result c
            ≡ list_any (λ n. has_colour c (places_by fixed.now n)) numbers.now }
    {
        let mut closed = Closed::none();
        for number in numbers {
            closed.close(place_at(fixed, *number));
        }
        closed
    }
}
