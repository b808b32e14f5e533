//! The registers whose places are open, in the order in which they are scanned.
ghost use Rattle.std.specs.Prelude.{◌≡◌, ◌<◌, ◌++◌, ◌∷◌, ℕ, [], List, None, IfOk, IfSome, OnOk};
ghost use Rattle.std.specs.List.Sorted.{IsPermutation, IsSortedBy, IsStableBy};
ghost use Rattle.bs_words.specs.declared.types.Loc.TheVariants as loc;
ghost use Rattle.mach_ir.specs.Graph.{IsOrdered};
ghost use Rattle.mach_ir.specs.declared.graph.Node.{Node};
ghost use Rattle.linscan_rules.specs.Table.{IsScannable, IsScanOrder};
ghost use Rattle.linscan.specs.Order.{IsOpenNode, AreOpenNodes, ComesAfter, begins_before, open_rows, AreNodesOf};
ghost use Rattle.linscan.specs.Seen.{range_at};

use crate::ranges::Ranges;
use linscan_rules::Intervals;
use mach_ir::{Graph, Node};
use std::alloc::{AllocError, Global};

/// A register whose place is open, with its interval.
#[derive(Clone, Copy)]
pub struct OpenRegister {
    /// Its number.
    pub number: u32,
    /// The number of the register that it comes from.
    pub origin: u32,
    /// The first place of its interval.
    pub from: u32,
    /// The last place.
    pub to: u32,
}

/// A node whose place is open, and its register with its interval.
#[derive(Drop)]
pub struct OpenNode<'a> {
    /// The register.
    pub register: OpenRegister,
    /// The node.
    pub node: &'a Node,
}

/// The node with the interval of its register, if its place is open.
fn open_node<'a>(ranges: &Ranges, node: &'a Node) -> Option<OpenNode<'a>>
    ensures some { IfSome result (IsOpenNode ranges.now node.now) }
    ensures none { result ≡ None → node.now.reg.loc ≡ loc.Unset →
        range_at ranges.now node.now.reg.number ≡ None }
{
    if !node.reg.is_open() {
        return None;
    }
    match ranges.at(node.reg.number) {
        None => None,
        Some(range) => Some(OpenNode {
            register: OpenRegister {
                number: node.reg.number,
                origin: node.reg.origin,
                from: range.from,
                to: range.to,
            },
            node,
        }),
    }
}

/// Adds the node, if its place is open.
fn push_open<'a>(
    opens: &mut Vec<OpenNode<'a>>,
    ranges: &Ranges,
    node: &'a Node,
) -> Result<(), AllocError>
    ensures { IfOk result (λ _. (nodes : List Node) → ComesAfter nodes node.now →
        AreOpenNodes ranges.now nodes opens.old.items →
        AreOpenNodes ranges.now (nodes ++ node.now ∷ []) opens.new.items) }
{
    match open_node(ranges, node) {
        None => Ok(()),
        Some(one) => {
            opens.push(one)?;
            Ok(())
        }
    }
}

/// The nodes of a graph whose places are open, by rising number.
/// The only error is want of memory.
fn open_nodes<'a>(
    alloc: Global,
    graph: &'a Graph,
    ranges: &Ranges,
) -> Result<Vec<OpenNode<'a>>, AllocError>
    requires { IsOrdered graph.now }
    ensures { IfOk result (λ opens. AreOpenNodes ranges.now graph.now.nodes opens.items) }
{
    let mut opens = Vec::new(alloc);
    for node in graph.nodes.as_slice() {
        push_open(&mut opens, ranges, node)?;
    }
    Ok(opens)
}

/// Sorts the nodes by where their intervals begin. Those that begin together stay in their order.
fn sort_by_start(opens: &mut Vec<OpenNode>) -> Result<(), AllocError>
    ensures permutation { IsPermutation opens.old.items opens.new.items }
    ensures sorted { OnOk result (IsSortedBy begins_before opens.new.items) }
    ensures stable { OnOk result (IsStableBy begins_before opens.old.items opens.new.items) }
{
    opens.sort_by_key(|one| one.register.from)?;
    Ok(())
}

/// The nodes of a graph whose places are open, in the order in which they get them: by where their
/// intervals begin, and of two that begin together by number. The only error is want of memory.
pub fn scan_order<'a>(
    alloc: Global,
    graph: &'a Graph,
    intervals: &Intervals,
) -> Result<Vec<OpenNode<'a>>, AllocError>
    requires ordered { IsOrdered graph.now }
    requires scannable { IsScannable graph.now intervals.now }
    ensures order { IfOk result (λ opens.
        IsScanOrder graph.now intervals.now (open_rows opens.items)) }
    ensures nodes { IfOk result (λ opens. AreNodesOf graph.now opens.items) }
{
    let ranges = Ranges::of_intervals(alloc, intervals)?;
    let mut opens = open_nodes(alloc, graph, &ranges)?;
    sort_by_start(&mut opens)?;
    Ok(opens)
}
