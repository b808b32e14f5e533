//! Where control may go between numbered places, and what each place reads and writes.
ghost use Rattle.std.specs.Prelude.{◌↔◌, ◌<◌, IsTrue};
ghost use Rattle.std.specs.List.{All};
ghost use Rattle.dataflow.specs.Flow.{IsBare};

use bs_words::List;
use std::alloc::Global;

/// Whether each number is below `bound`.
fn all_below(numbers: &[u32], bound: usize) -> bool
    ensures { IsTrue result ↔ All (λ k. k < bound) numbers.now }
{
    numbers.iter().all(|k| (*k as usize) < bound)
}

/// One place. It reads first, and then writes.
#[derive(Drop)]
pub struct Place {
    /// The places that may come next, once the numbers are written.
    pub next: List<u32>,

    /// The places that may come next with nothing written, as the handler that a call raises to.
    pub aside: List<u32>,

    /// The numbers that are read.
    pub reads: List<u32>,

    /// The numbers that are written.
    pub writes: List<u32>,
}

/// A place that leads nowhere, reads nothing and writes nothing: the one after the last instruction.
pub fn bare_place(alloc: Global) -> Place
    ensures { IsBare result }
{
    Place {
        next: List::new(alloc),
        aside: List::new(alloc),
        reads: List::new(alloc),
        writes: List::new(alloc),
    }
}

/// A graph of places, which are numbered from 0 by their order.
#[derive(Drop)]
pub struct Flow {
    /// The places, in the order of their numbers.
    pub places: List<Place>,

    /// The number below which all numbers are that places read and write.
    pub bound: u32,
}

impl Place {
    ghost use Rattle.std.specs.Prelude.{◌↔◌, IsTrue};
    ghost use Rattle.dataflow.specs.Flow.{IsPlace};

    /// Whether it is a place of a graph of `count` places and numbers below `bound`.
    pub fn is_place(&self, count: usize, bound: u32) -> bool
        ensures { IsTrue result ↔ IsPlace count bound self.now }
    {
        all_below(self.next.as_slice(), count)
            && all_below(self.aside.as_slice(), count)
            && all_below(self.reads.as_slice(), bound as usize)
            && all_below(self.writes.as_slice(), bound as usize)
    }
}

impl Flow {
    ghost use Rattle.std.specs.Prelude.{◌↔◌, IsTrue};
    ghost use Rattle.dataflow.specs.Flow.{IsFlowFormed};

    /// Whether every place that is named exists, and every number is below the bound.
    pub fn is_well_formed(&self) -> bool
        ensures { IsTrue result ↔ IsFlowFormed self.now }
    {
        let count = self.places.len();
        let bound = self.bound;
        for place in self.places.as_slice() {
            let fits = place.is_place(count, bound);
            if !fits {
                return false;
            }
        }
        true
    }
}
