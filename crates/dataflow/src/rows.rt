//! A set of numbers for each place.
ghost use Rattle.std.specs.Prelude.{◌≡◌, ◌<◌, length};
ghost use Rattle.bs_bits.specs.Set.{has};
ghost use Rattle.dataflow.specs.Rows.{set_in_row};

use bs_bits::Bits;

/// A set of numbers for each place of a graph.
#[derive(Drop)]
pub struct Rows {
    /// The set of each place, in the order of the places.
    pub rows: Vec<Bits>,
}

impl Rows {
    /// The set of the place.
    pub fn at(&self, place: usize) -> &Bits
        requires { place < length self.now.rows.items }
        ensures { result.now ≡ set_in_row self.now.rows.items place }
    {
        &self.rows[place]
    }

    /// Whether the number is in the set of the place. There is none past the last place, or from the
    /// bound on.
    pub fn contains(&self, place: usize, number: u32) -> bool
        ensures { result ≡ has (set_in_row self.now.rows.items place) number }
    {
        match self.rows.get(place) {
            None => false,
            Some(set) => number < set.size() && set.contains(number),
        }
    }
}
