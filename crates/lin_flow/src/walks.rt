//! Where walks from the entry come.
ghost use Rattle.std.specs.Prelude.{IfOk};
ghost use Rattle.lin_flow.specs.Nodes.{IsText};
ghost use Rattle.lin_flow.specs.Walked.{IsWalked};

use crate::labels::LineLabels;
use crate::nodes::spread;
use crate::search::Search;
use dataflow::Place;
use lin_ir::Lin;
use std::alloc::{AllocError, Global};

/// The positions of a function to which walks come, each with its place of the flow graph.
#[derive(Drop)]
pub struct Walks {
    /// The positions, by their numbers.
    pub search: Search,

    /// The place of the flow graph of each position, in the order of the numbers.
    pub nodes: Vec<Place>,
}

/// Searches where walks from the entry come.
///
/// Each position is visited once. That there are more than numbers is want of memory.
pub fn search_walks(alloc: Global, lin: &Lin, labels: &LineLabels) -> Result<Walks, AllocError>
    requires { IsText lin.now labels.now }
    ensures { IfOk result (λ walks. IsWalked lin.now walks.search walks.nodes.items) }
{
    let last = lin.code.len();
    let mut search = Search::new(alloc, last)?;
    let mut nodes = Vec::with_capacity(alloc, last + 1)?;
    let _entry = search.enter(alloc, 0, &[])?;
    spread(alloc, lin, labels, &mut search, &mut nodes)?;
    Ok(Walks { search, nodes })
}
