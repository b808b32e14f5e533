//! The nodes of a graph by the numbers of their registers.
ghost use Rattle.std.specs.Prelude.{◌≡◌, ◌<◌, ℕ, IfOk, option_copied, length};
ghost use Rattle.mach_ir.specs.Graph.{IsOrdered};
ghost use Rattle.colouring.specs.Chosen.{node_at, location_of_node, fixed};
ghost use Rattle.colouring.specs.Tables.{IsNodeIndex, node_by, places_by};

use bs_words::Loc;
use mach_ir::{Graph, Node};
use std::alloc::{AllocError, Global};

/// Where a graph has the node of each number.
#[derive(Drop)]
pub struct NodeTable {
    /// By the number of the register, the index of its node.
    pub indices: Vec<Option<usize>>,
}

impl NodeTable {
    /// The table of a graph. The time is that of its nodes and of the greatest number.
    /// The only error is want of memory.
    pub fn new(alloc: Global, graph: &Graph) -> Result<Self, AllocError>
        requires { IsOrdered graph.now }
        ensures { IfOk result (λ table. IsNodeIndex graph.now.nodes table.indices.items) }
    {
        let mut indices = Vec::new(alloc);
        let mut index: usize = 0;
        for node in graph.nodes.as_slice() {
            indices.resize(node.reg.number as usize, None)?;
            indices.push(Some(index))?;
            index += 1;
        }
        Ok(NodeTable { indices })
    }

    /// The node of a number in the graph whose table this is.
    pub fn get<'a>(&self, graph: &'a Graph, number: u32) -> Option<&'a Node>
        requires { IsNodeIndex graph.now.nodes self.now.indices.items }
        ensures { option_copied result ≡ node_at graph.now.nodes number }
    {
        match self.indices.get(number as usize) {
            Some(Some(index)) => graph.nodes.get(*index),
            Some(None) => None,
            None => None,
        }
    }

    /// The fixed places of the graph whose table this is, by number.
    /// The only error is want of memory.
    pub fn fixed_places(&self, alloc: Global, graph: &Graph) -> Result<Vec<Loc>, AllocError>
        requires { IsNodeIndex graph.now.nodes self.now.indices.items }
        ensures places { IfOk result (λ places. (n : ℕ) →
            places_by places.items n ≡ fixed graph.now n) }
        ensures len { IfOk result (λ places. length places.items ≡ length self.now.indices.items) }
    {
        let mut places = Vec::with_capacity(alloc, self.indices.len())?;
        for index in &self.indices {
            places.push(fixed_place(graph, *index))?;
        }
        Ok(places)
    }
}

/// The place of the register at an index.
fn fixed_place(graph: &Graph, index: Option<usize>) -> Loc
    ensures { result ≡ location_of_node (node_by graph.now.nodes index) }
{
    let Some(index) = index else {
        return Loc::Unset;
    };
    match graph.nodes.get(index) {
        Some(node) => node.reg.loc,
        None => Loc::Unset,
    }
}
