//! The order in which registers get their places.
//!
//! Registers of reloads are first: such a one lives only beside one instruction, and a slot for it would
//! ask for another of its kind in the next round. Neighbours in slots do not count among those in a
//! register's way, since they take no colour.
ghost use Rattle.std.specs.Prelude.{◌≡◌, ℕ, IfOk, OnOk, filter, not};
ghost use Rattle.std.specs.List.Sorted.{IsPermutation, IsSortedBy, IsStableBy};
ghost use Rattle.mach_ir.specs.Graph.{IsOrdered};
ghost use Rattle.colouring.specs.Chosen.{is_slot, degree, fixed, urgency, IsOrder};
ghost use Rattle.colouring.specs.Tables.{is_uncoloured, referred, ranked_nodes, AreRanked, is_more_urgent, places_by};

use bs_words::Loc;
use mach_ir::{Graph, Node};
use rv_isa::COLOURS;
use std::alloc::{AllocError, Global};
use std::cmp::Reverse;

/// A node whose place is open, and how urgent it is.
#[derive(Drop)]
pub struct Ranked<'a> {
    /// As `urgency` has it: 0 where it is not urgent.
    pub urgency: u64,
    /// The node.
    pub node: &'a Node,
}

/// Whether a register, by its number, has or may take a colour where these are the fixed places.
fn takes_colour(places: &[Loc], number: u32) -> bool
    ensures { result ≡ not (is_slot (places_by places.now number)) }
{
    match places.get(number as usize) {
        Some(Loc::Unset) => true,
        Some(Loc::Machine(_register)) => true,
        Some(Loc::Slot(_slot)) => false,
        None => true,
    }
}

/// How many of a node's neighbours have or may take a colour: those that are in slots take none.
fn degree(places: &[Loc], node: &Node) -> usize
    ensures { result ≡ degree (places_by places.now) node.now }
{
    let mut count: usize = 0;
    for number in node.neighbours.as_slice() {
        if takes_colour(places, *number) {
            count += 1;
        }
    }
    count
}

/// How urgent a register is: one that reloading made, numbered `fresh` or above, more than any other, since
/// a slot for it would only ask for another. Of the others, what a slot would cost for each neighbour that
/// takes a colour, in 1024ths of a use; one with fewer such neighbours than there are colours is not urgent.
fn urgency(places: &[Loc], fresh: u32, node: &Node) -> u64
    ensures { result ≡ urgency (places_by places.now) fresh node.now }
{
    if fresh <= node.reg.number {
        return u64::MAX;
    }
    let degree = degree(places, node);
    if degree < COLOURS.len() {
        0
    } else {
        1 + u64::from(node.uses) * 1024 / degree as u64
    }
}

/// The nodes whose places are open, by rising number, and how urgent they are.
fn open_nodes<'a>(
    alloc: Global,
    graph: &'a Graph,
    places: &[Loc],
    fresh: u32,
) -> Result<Vec<Ranked<'a>>, AllocError>
    ensures nodes { IfOk result (λ ranked.
        ranked_nodes ranked.items ≡ filter is_uncoloured graph.now.nodes) }
    ensures ranked { IfOk result (λ ranked. AreRanked (places_by places.now) fresh ranked.items) }
{
    let mut ranked = Vec::new(alloc);
    for node in graph.nodes.as_slice() {
        if node.reg.is_open() {
            let urgency = urgency(places, fresh, node);
            ranked.push(Ranked { urgency, node })?;
        }
    }
    Ok(ranked)
}

/// Sorts the nodes by falling urgency. Those as urgent stay in their order.
fn sort_by_urgency(nodes: &mut Vec<Ranked>) -> Result<(), AllocError>
    ensures permutation { IsPermutation nodes.old.items nodes.new.items }
    ensures sorted { OnOk result (IsSortedBy is_more_urgent nodes.new.items) }
    ensures stable { OnOk result (IsStableBy is_more_urgent nodes.old.items nodes.new.items) }
{
    nodes.sort_by_key(|ranked| Reverse(ranked.urgency))?;
    Ok(())
}

/// The nodes alone.
fn nodes_of<'a>(alloc: Global, ranked: &[Ranked<'a>]) -> Result<Vec<&'a Node>, AllocError>
    ensures { IfOk result (λ nodes. referred nodes.items ≡ ranked_nodes ranked.now) }
{
    let mut nodes = Vec::new(alloc);
    for one in ranked {
        nodes.push(one.node)?;
    }
    Ok(nodes)
}

/// The nodes whose places are open, in the order in which they get them, where `places` are the fixed ones,
/// and registers numbered `fresh` or above were made by reloading.
/// The only error is want of memory.
pub fn order<'a>(
    alloc: Global,
    graph: &'a Graph,
    places: &[Loc],
    fresh: u32,
) -> Result<Vec<&'a Node>, AllocError>
    requires ordered { IsOrdered graph.now }
    requires places { (n : ℕ) → places_by places.now n ≡ fixed graph.now n }
    ensures { IfOk result (λ nodes. IsOrder fresh graph.now (referred nodes.items)) }
{
    let mut ranked = open_nodes(alloc, graph, places, fresh)?;
    sort_by_urgency(&mut ranked)?;
    let nodes = nodes_of(alloc, ranked.as_slice())?;
    Ok(nodes)
}
