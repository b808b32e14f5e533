//! What the lines of a run ask of those before them: how high the lines stand that depend on one.
ghost use Rattle.std.specs.Prelude.{◌≡◌, ◌+◌, ◌∷◌, [], List, cond, max, IfOk};
ghost use Rattle.bs_words.specs.declared.types.Loc.{Loc};
ghost use Rattle.lin_ir.specs.Meaning.{same_loc};
ghost use Rattle.schedule_rules.specs.Straight.{is_access, is_among_spots, is_store, weight_of_line, highest_after, Ranked};
ghost use Rattle.schedule.specs.Heights.{IsLater, greatest_at, height_at, height_of_number, number_of, ranked_as};

use crate::plain::{is_access, is_store, weight};
use bs_words::Loc;
use lin_ir::{LinOp, Line, Spot};
use std::alloc::{AllocError, Global};
use std::collections::BTreeMap;

/// A number for a location, if it has a place.
fn number_of(loc: Loc) -> Option<u64>
    ensures { result ≡ number_of loc }
{
    match loc {
        Loc::Unset => None,
        Loc::Machine(register) => Some(2 * u64::from(register)),
        Loc::Slot(slot) => Some(2 * u64::from(slot) + 1),
    }
}

/// The height where the condition holds, else 0.
fn height_if(condition: bool, height: u32) -> u32
    ensures { result ≡ cond condition height 0 }
{
    if condition { height } else { 0 }
}

/// For each location the height of a line, 0 where none is known.
#[derive(Drop)]
pub struct Heights {
    by_number: BTreeMap<u64, u32>,
}

impl Heights {
    fn none(alloc: Global) -> Self
        ensures { (l : Loc) → height_at result l ≡ 0 }
    {
        Heights {
            by_number: BTreeMap::new(alloc),
        }
    }

    fn of_number(&self, number: u64) -> u32
        ensures { result ≡ height_of_number self.now number }
    {
        match self.by_number.get(&number) {
            None => 0,
            Some(height) => *height,
        }
    }

    fn at(&self, loc: Loc) -> u32
        ensures { result ≡ height_at self.now loc }
    {
        match number_of(loc) {
            None => 0,
            Some(number) => self.of_number(number),
        }
    }

    /// The greatest height at one of these locations, 0 where there is none.
    fn greatest(&self, spots: &[Spot]) -> u32
        ensures { result ≡ greatest_at self.now spots.now }
    {
        let mut greatest = 0;
        for spot in spots {
            greatest = greatest.max(self.at(spot.loc));
        }
        greatest
    }

    /// The location has at least this height.
    fn raise(&mut self, loc: Loc, height: u32) -> Result<(), AllocError>
        ensures { IfOk result (λ _. (l : Loc) →
            height_at self.new l ≡ max (cond (same_loc loc l) height 0) (height_at self.old l)) }
    {
        match number_of(loc) {
            None => Ok(()),
            Some(number) => {
                let height = height.max(self.of_number(number));
                self.by_number.insert(number, height)?;
                Ok(())
            }
        }
    }

    /// Each of these locations has at least this height.
    fn raise_all(&mut self, spots: &[Spot], height: u32) -> Result<(), AllocError>
        ensures { IfOk result (λ _. (l : Loc) → height_at self.new l
            ≡ max (cond (is_among_spots l spots.now) height 0) (height_at self.old l)) }
    {
        for spot in spots {
            self.raise(spot.loc, height)?;
        }
        Ok(())
    }
}

/// The greatest heights of the later lines of a run, by what they do. These are all that the height of
/// a line before them depends on.
#[derive(Drop)]
pub struct Later {
    /// Of those that read a location.
    read: Heights,
    /// Of those that write it.
    written: Heights,
    /// Of loads and stores.
    access: u32,
    /// Of stores.
    store: u32,
}

impl Later {
    /// No line comes later.
    pub fn none(alloc: Global) -> Self
        ensures { IsLater [] result }
    {
        Later {
            read: Heights::none(alloc),
            written: Heights::none(alloc),
            access: 0,
            store: 0,
        }
    }

    /// The greatest height of those that depend on a line by memory.
    fn highest_in_memory(&self, op: &LinOp) -> u32
        ensures { result ≡ max (cond (is_store op.now) self.now.access 0)
            (cond (is_access op.now) self.now.store 0) }
    {
        let stores = height_if(is_store(op), self.access);
        stores.max(height_if(is_access(op), self.store))
    }

    /// The greatest height of those that depend on a line, 0 where none does.
    fn highest(&self, line: &Line) -> u32
        ensures { (rs : List Ranked) → IsLater rs self.now → result ≡ highest_after line.now rs }
    {
        let args = line.args.as_slice();
        let results = line.results.as_slice();
        let reads = self.read.greatest(results);
        let writes = self
            .written
            .greatest(args)
            .max(self.written.greatest(results));
        reads.max(writes).max(self.highest_in_memory(&line.op))
    }

    /// The height of a line right before them. A height that has no number of 32 bits is want of
    /// memory: there would be a thousand million lines.
    pub fn height_of(&self, line: &Line) -> Result<u32, AllocError>
        ensures { IfOk result (λ height. (rs : List Ranked) → IsLater rs self.now →
            height ≡ weight_of_line line.now.op + highest_after line.now rs) }
    {
        weight(&line.op)
            .checked_add(self.highest(line))
            .ok_or(AllocError)
    }

    /// Adds a line that stands right before them.
    pub fn put(&mut self, line: &Line, height: u32) -> Result<(), AllocError>
        ensures { IfOk result (λ _. (rs : List Ranked) → IsLater rs self.old →
            IsLater (ranked_as line.now height ∷ rs) self.new) }
    {
        self.read.raise_all(line.args.as_slice(), height)?;
        self.written.raise_all(line.results.as_slice(), height)?;
        self.access = height_if(is_access(&line.op), height).max(self.access);
        self.store = height_if(is_store(&line.op), height).max(self.store);
        Ok(())
    }
}
