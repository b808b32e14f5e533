//! How many registers are in each machine register.
ghost use Rattle.std.specs.Prelude.{◌≡◌, ◌<◌, ◌+◌, ◌^◌, ℕ, cond, nat_eq, length};
ghost use Rattle.colouring.specs.Chosen.{has_colour, count_in_colour};
ghost use Rattle.colouring.specs.Tables.{places_by, count_at};

use bs_words::Loc;

/// A count for each of the thirty-two machine registers, by number.
#[derive(Clone, Copy)]
pub struct Counts {
    /// How many registers are in the machine register of each number.
    pub items: [u128; 32],
}

/// The place of a register by its number, and `Unset` where the table has none.
pub fn place_at(places: &[Loc], number: u32) -> Loc
    ensures { result ≡ places_by places.now number }
{
    match places.get(number as usize) {
        Some(place) => *place,
        None => Loc::Unset,
    }
}

impl Counts {
    /// No register.
    pub fn new() -> Self
        ensures { (register : ℕ) → count_at result register ≡ 0 }
    {
        Counts { items: [0; 32] }
    }

    /// How many registers are there.
    pub fn at(&self, register: u8) -> u128
        ensures { result ≡ count_at self.now register }
    {
        match self.items.get(usize::from(register)) {
            Some(count) => *count,
            None => 0,
        }
    }

    /// Counts one more register in a machine register.
    fn add_one(&mut self, register: u8)
        requires { (r : ℕ) → r < 32 → count_at self.old r + 1 < 2 ^ 128 }
        ensures { (r : ℕ) → r < 32 →
            count_at self.new r ≡ count_at self.old r + cond (nat_eq register r) 1 0 }
    {
        let register = usize::from(register);
        if register < 32 {
            self.items[register] += 1;
        }
    }

    /// Counts one more register, at its place. A slot has no count.
    fn add(&mut self, place: Loc)
        requires { (r : ℕ) → r < 32 → count_at self.old r + 1 < 2 ^ 128 }
        ensures { (r : ℕ) → r < 32 →
            count_at self.new r ≡ count_at self.old r + cond (has_colour r place) 1 0 }
    {
        match place {
            Loc::Unset => {}
            Loc::Machine(register) => self.add_one(register),
            Loc::Slot(_slot) => {}
        }
    }

    /// Counts these registers, at their places.
    pub fn add_all(&mut self, places: &[Loc], numbers: &[u32])
        requires { (r : ℕ) → r < 32 → count_at self.old r + length numbers.now < 2 ^ 128 }
        ensures { (r : ℕ) → r < 32 → count_at self.new r ≡
            count_at self.old r + count_in_colour (places_by places.now) r numbers.now }
    {
        for number in numbers {
            self.add(place_at(places, *number));
        }
    }
}
