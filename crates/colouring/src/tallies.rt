//! What speaks for each colour at the place of one register.
ghost use Rattle.std.specs.Prelude.{◌≡◌, ◌<◌, ℕ, filter};
ghost use Rattle.colouring.specs.Chosen.{count_in_colour, wanted_by, better_colour, first_best};
ghost use Rattle.colouring.specs.Tables.{IsNodeIndex, places_by, count_at, merit_by, free_by};

use crate::counts::Counts;
use crate::merit::Merit;
use crate::nodes::NodeTable;
use bs_words::Loc;
use mach_ir::{Graph, Node};

/// Counts for one register, by machine register.
#[derive(Clone, Copy)]
pub struct Tallies {
    /// Its neighbours that are there.
    pub near: Counts,
    /// Its moves that have their other end there.
    pub own: Counts,
    /// The moves of its neighbours that do.
    pub wanted: Counts,
}

/// The moves of these registers that have their other end in each machine register.
fn wanted(graph: &Graph, table: &NodeTable, places: &[Loc], numbers: &[u32]) -> Counts
    requires { IsNodeIndex graph.now.nodes table.now.indices.items }
    ensures { (register : ℕ) → register < 32 →
        count_at result register ≡ wanted_by graph.now (places_by places.now) register numbers.now }
{
    let mut counts = Counts::new();
    for number in numbers {
        if let Some(node) = table.get(graph, *number) {
            counts.add_all(places, node.moves.as_slice());
        }
    }
    counts
}

impl Tallies {
    /// The counts for a register. The time is that of its neighbours, its moves and theirs.
    pub fn new(graph: &Graph, table: &NodeTable, places: &[Loc], node: &Node) -> Self
        requires { IsNodeIndex graph.now.nodes table.now.indices.items }
        ensures near { (register : ℕ) → register < 32 →
            count_at result.near register
            ≡ count_in_colour (places_by places.now) register node.now.neighbours }
        ensures own { (register : ℕ) → register < 32 →
            count_at result.own register ≡ count_in_colour (places_by places.now) register node.now.moves }
        ensures wanted { (register : ℕ) → register < 32 → count_at result.wanted register ≡
            wanted_by graph.now (places_by places.now) register node.now.neighbours }
    {
        let mut near = Counts::new();
        near.add_all(places, node.neighbours.as_slice());
        let mut own = Counts::new();
        own.add_all(places, node.moves.as_slice());
        let wanted = wanted(graph, table, places, node.neighbours.as_slice());
        Tallies { near, own, wanted }
    }

    fn merit(&self, colour: u8) -> Merit
        ensures { result ≡ merit_by self.now colour }
    {
        Merit {
            own: self.own.at(colour),
            wanted: self.wanted.at(colour),
        }
    }

    fn is_free(&self, colour: u8) -> bool
        ensures { result ≡ free_by self.now colour }
    {
        self.near.at(colour) == 0
    }

    /// The colour, or the later one if that is better.
    fn keep(&self, colour: u8, later: Option<u8>) -> u8
        ensures { result ≡ better_colour (merit_by self.now) colour later }
    {
        match later {
            Some(later) => {
                if self.merit(later).is_better(self.merit(colour)) {
                    later
                } else {
                    colour
                }
            }
            None => colour,
        }
    }

    /// The first of the best of the free ones among these colours.
    pub fn best(&self, colours: &[u8]) -> Option<u8>
        ensures { result ≡ first_best (merit_by self.now) (filter (free_by self.now) colours.now) }
    {
        let mut best = None;
        let mut left = colours.len();
        while left > 0 {
            left -= 1;
            let colour = colours[left];
            if self.is_free(colour) {
                best = Some(self.keep(colour, best));
            }
        }
        best
    }
}
