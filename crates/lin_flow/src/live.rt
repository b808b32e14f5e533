//! What is live where walks come.
ghost use Rattle.std.specs.Prelude.{◌<◌, ◌↔◌, length, IfOk, IsTrue};
ghost use Rattle.lin_ir.specs.declared.lin.Lin.{Lin};
ghost use Rattle.lin_laws.specs.Graph.{AreNumbered, location_of_number};
ghost use Rattle.lin_flow.specs.Live.{ReadsOnFrom, ReadsOnAmong};
ghost use Rattle.lin_flow.specs.Sizes.{IsCountable};
ghost use Rattle.lin_flow.specs.Walked.{AreLive, IsReachedAt, IsReadAfter};

use crate::labels::LineLabels;
use crate::lines::bound_of;
use crate::nodes::node_numbered;
use crate::search::Search;
use crate::walks::{Walks, search_walks};
use bs_words::List;
use dataflow::{Flow, Rows, live_in_any_order};
use lin_ir::Lin;
use std::alloc::{AllocError, Global};

/// The positions of a function to which walks come, and what is live as val before each.
#[derive(Drop)]
pub struct LiveWalks {
    /// The positions, by their numbers.
    pub search: Search,

    /// How many positions there are.
    pub reached: u32,

    /// Its places have the numbers of positions.
    pub flow: Flow,

    /// For each position a row of the locations that are live as val before it, by their numbers.
    pub live: Rows,
}

/// Searches where walks from the entry come, and what is live there as val.
///
/// That walks come to more positions than there are numbers is want of memory.
pub fn live_walks(alloc: Global, lin: &Lin) -> Result<LiveWalks, AllocError>
    requires numbered { AreNumbered lin.now }
    requires countable { IsCountable lin.now }
    ensures { IfOk result (AreLive lin.now) }
{
    let bound = bound_of(lin.slots);
    let labels = LineLabels::of_function(alloc, lin)?;
    let Walks { search, nodes } = search_walks(alloc, lin, &labels)?;
    let reached = nodes.len() as u32;
    let flow = Flow {
        places: List::from_vec(nodes),
        bound,
    };
    let live = live_in_any_order(alloc, &flow)?;
    Ok(LiveWalks {
        search,
        reached,
        flow,
        live,
    })
}

impl LiveWalks {
    /// Whether some walk comes to the place.
    pub fn is_reached(&self, place: u32) -> bool
        ensures { (m : Lin) → AreLive m self.now → place < length m.code →
            IsTrue result ↔ IsReachedAt m place }
    {
        self.search.has_first(place, self.reached)
    }

    /// Whether the location of the number is live before one of the positions.
    fn is_live_before(&self, positions: &[u32], number: u32) -> bool
        ensures { IsTrue result ↔ ReadsOnAmong self.now positions.now number }
    {
        for position in positions {
            if self.live.contains(*position as usize, number) {
                return true;
            }
        }
        false
    }

    /// Whether the position is at the place, and the location of the number is live where control
    /// goes on from it.
    fn is_live_after_position(&self, position: u32, place: u32, number: u32) -> bool
        ensures { IsTrue result ↔ ReadsOnFrom self.now place number position }
    {
        if !self.search.is_there(position, place) {
            return false;
        }
        match node_numbered(self.flow.places.as_slice(), position) {
            None => false,
            Some(node) => self.is_live_before(node.next.as_slice(), number),
        }
    }

    /// Whether some walk comes to the line at the place and goes on to where the location of the
    /// number is live as val.
    pub fn is_live_after(&self, place: u32, number: u32) -> bool
        ensures { (m : Lin) → AreLive m self.now →
            IsTrue result ↔ IsReadAfter m place (location_of_number number) }
    {
        for position in self.search.members(place) {
            if self.is_live_after_position(*position, place, number) {
                return true;
            }
        }
        false
    }
}
