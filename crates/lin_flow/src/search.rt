//! The positions that walks come to, each with its number.
//!
//! More positions than 32 bits count is answered as want of memory: any function may be searched, and one
//! whose loop pushes traps has no end of them.
ghost use Rattle.std.specs.Prelude.{◌≡◌, ◌<◌, ◌↔◌, option_copied, bytes_eq, Some, All, length, map, slice_get, IfOk, IfSome, IsTrue, IsFalse};
ghost use Rattle.lin_laws.specs.Graph.{position, AreNumbersOf};
ghost use Rattle.lin_flow.specs.Search.{all_positions, groups_of, search_members, AreGrouped, HasMember, Grown, PositionEntered, Starts, IsThere, HasFirst};

use crate::tries::copy_of;
use lin_laws::Position;
use std::alloc::{AllocError, Global};

/// Numbers of positions.
#[derive(Drop)]
pub struct PositionGroup {
    /// The numbers, in the order in which they came.
    pub members: Vec<u32>,
}

/// Positions by their numbers, and for each place of the text the numbers of those that are there.
#[derive(Drop)]
pub struct Search {
    /// Each position at its number.
    pub positions: Vec<Position>,

    /// The group of each place.
    pub groups: Vec<PositionGroup>,
}

fn same_tries(one: &[u32], other: &[u32]) -> bool
    ensures { result ≡ bytes_eq one.now other.now }
{
    one == other
}

/// Adds a member to a group.
fn add_member(groups: &mut Vec<PositionGroup>, place: u32, member: u32) -> Result<(), AllocError>
    requires { place < length groups.old.items }
    ensures { IfOk result (λ _. HasMember groups.old.items groups.new.items place member) }
{
    let group = &mut groups[place as usize];
    group.members.push(member)?;
    Ok(())
}

impl Search {
    /// No position, where the last place has this number. The only error is want of memory.
    pub fn new(alloc: Global, last: usize) -> Result<Search, AllocError>
        requires { last < 4294967296 }
        ensures { IfOk result (Starts last) }
    {
        let count = last + 1;
        let mut groups = Vec::with_capacity(alloc, count)?;
        for _place in 0..count {
            groups.push(PositionGroup {
                members: Vec::new(alloc),
            })?;
        }
        // Most functions have one position for each place.
        let positions = Vec::with_capacity(alloc, count)?;
        Ok(Search { positions, groups })
    }

    /// The numbers of the positions that are at the place. There are none past the last place.
    pub fn members(&self, place: u32) -> &[u32]
        ensures { result.now ≡ search_members (groups_of self.now) place }
    {
        match self.groups.get(place as usize) {
            None => &[],
            Some(group) => group.members.as_slice(),
        }
    }

    /// The position that has the number.
    pub fn position_at(&self, number: u32) -> Option<&Position>
        ensures { option_copied result ≡ slice_get (all_positions self.now) number }
    {
        self.positions.get(number as usize)
    }

    /// A copy of the position that has the number. The only error is want of memory.
    pub fn copy_at(&self, number: usize) -> Result<Position, AllocError>
        requires { number < length (all_positions self.now) }
        ensures { IfOk result (λ found. slice_get (all_positions self.now) number ≡ Some found) }
    {
        self.positions[number].clone()
    }

    /// Whether the number is that of the position.
    fn is_at(&self, number: u32, place: u32, tries: &[u32]) -> bool
        ensures { IsTrue result →
            slice_get (all_positions self.now) number ≡ Some (position place tries.now) }
    {
        match self.position_at(number) {
            None => false,
            Some(found) => found.place == place && same_tries(found.tries.as_slice(), tries),
        }
    }

    /// The number of the position, if it has one.
    fn find(&self, place: u32, tries: &[u32]) -> Option<u32>
        ensures { IfSome result (λ number.
            slice_get (all_positions self.now) number ≡ Some (position place tries.now)) }
    {
        for number in self.members(place) {
            if self.is_at(*number, place, tries) {
                return Some(*number);
            }
        }
        None
    }

    /// Gives the position a number of its own. That more than 32 bits count are wanted is answered as want of
    /// memory: a function whose loops push traps has no end of positions.
    fn add(&mut self, alloc: Global, place: u32, tries: &[u32]) -> Result<u32, AllocError>
        requires { place < length (groups_of self.old) }
        ensures { IfOk result (λ number.
            PositionEntered self.old self.new (position place tries.now) number) }
    {
        let count = self.positions.len();
        if count >= u32::MAX as usize {
            return Err(AllocError);
        }
        let number = count as u32;
        let tries = copy_of(alloc, tries)?;
        self.positions.push(Position { place, tries })?;
        add_member(&mut self.groups, place, number)?;
        Ok(number)
    }

    /// The number of the position, a new one if it has none yet. The error is want of memory; more positions
    /// than 32 bits count are answered so too.
    pub fn enter(&mut self, alloc: Global, place: u32, tries: &[u32]) -> Result<u32, AllocError>
        requires { place < length (groups_of self.old) }
        ensures { IfOk result (λ number.
            PositionEntered self.old self.new (position place tries.now) number) }
    {
        if let Some(number) = self.find(place, tries) {
            return Ok(number);
        }
        self.add(alloc, place, tries)
    }

    /// The numbers of the positions at these places, with the same traps. The error is want of memory; more
    /// positions than 32 bits count are answered so too.
    pub fn enter_all(
        &mut self,
        alloc: Global,
        places: &[u32],
        tries: &[u32],
    ) -> Result<Vec<u32>, AllocError>
        requires { All (λ p. p < length (groups_of self.old)) places.now }
        ensures grown { IfOk result (λ _.
            Grown self.old self.new (map (λ p. position p tries.now) places.now)) }
        ensures numbers { IfOk result (λ numbers. AreNumbersOf (all_positions self.new) numbers.items
            (map (λ p. position p tries.now) places.now)) }
    {
        let mut numbers = Vec::with_capacity(alloc, places.len())?;
        for place in places {
            let number = self.enter(alloc, *place, tries)?;
            numbers.push(number)?;
        }
        Ok(numbers)
    }

    /// Whether one of the first positions, below this number, is at the place.
    pub fn has_first(&self, place: u32, first: u32) -> bool
        ensures yes { IsTrue result → HasFirst self.now place first }
        ensures no { IsFalse result → AreGrouped self.now → HasFirst self.now place first → ⊥ }
    {
        for number in self.members(place) {
            if *number < first && self.is_there(*number, place) {
                return true;
            }
        }
        false
    }

    /// Whether the number is that of a position at the place.
    pub fn is_there(&self, number: u32, place: u32) -> bool
        ensures { IsTrue result ↔ IsThere self.now place number }
    {
        match self.positions.get(number as usize) {
            None => false,
            Some(found) => found.place == place,
        }
    }
}
