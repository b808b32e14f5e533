//! The choice of places, one after the other.
//!
//! What is safe and what is not needless are a clause each. The first holds of whatever chooses places, so
//! a way of choosing that leaves a colour unused keeps as well.
ghost use Rattle.std.specs.Prelude.{◌≡◌, IfOk};
ghost use Rattle.mach_ir.specs.Graph.{IsColourable, InGraph, JoinedIn, coloured_location};
ghost use Rattle.mach_ir.specs.Placed.{IsProperColouring, NoNeedlessSlot};
ghost use Rattle.colouring.specs.Chosen.{chosen_location, IsGreedyColouring};
ghost use Rattle.colouring.specs.Tables.{IsNodeIndex, places_by};

use crate::nodes::NodeTable;
use crate::order::order;
use crate::tallies::Tallies;
use bs_words::Loc;
use mach_ir::{Colours, Graph, Node, Seq};
use rv_isa::COLOURS;
use std::alloc::{AllocError, Global};

/// The place for a register where others have theirs.
fn choose(graph: &Graph, table: &NodeTable, places: &[Loc], node: &Node) -> Loc
    requires { IsNodeIndex graph.now.nodes table.now.indices.items }
    ensures { result ≡ chosen_location graph.now (places_by places.now) node.now }
{
    let tallies = Tallies::new(graph, table, places, node);
    match tallies.best(&COLOURS) {
        Some(colour) => Loc::Machine(colour),
        None => Loc::Slot(node.reg.origin),
    }
}

/// A place for each register of a graph. Places that are fixed stay, neighbours are apart, and a register
/// goes to a slot only where each colour has a neighbour. Registers numbered `fresh` or above were made by
/// reloading, and come first.
///
/// The time is that of sorting the nodes, and of each node's neighbours, its moves and theirs. The only
/// error is want of memory.
pub fn colour(alloc: Global, graph: &Graph, fresh: u32) -> Result<Colours, AllocError>
    requires { IsColourable graph.now }
    ensures safe { IfOk result (λ colours.
        IsProperColouring (InGraph graph.now) (JoinedIn graph.now) (coloured_location colours)) }
    ensures full { IfOk result (λ colours.
        NoNeedlessSlot (InGraph graph.now) (JoinedIn graph.now) (coloured_location colours)) }
    ensures value { IfOk result (IsGreedyColouring fresh graph.now) }
{
    let table = NodeTable::new(alloc, graph)?;
    let mut places = table.fixed_places(alloc, graph)?;
    let order = order(alloc, graph, places.as_slice(), fresh)?;
    for node in &order {
        let place = choose(graph, &table, places.as_slice(), *node);
        places[node.reg.number as usize] = place;
    }
    Ok(Colours {
        places: Seq::from_vec(places),
    })
}
