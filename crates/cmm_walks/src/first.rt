//! The first address that is live at a frame point.
//!
//! Each node gets the least place of a use that it leads to, walked back from the uses, then the same for
//! frame points, then for bindings. A label at or below x says that a walk lies within the limit x, so
//! three least labels one after the other are the least triple.
//! A function that binds no address takes no such pass, and any other accepted one a single pass.
ghost use Rattle.std.specs.Prelude.{◌≡◌, ◌<◌, suc, length, IfOk};
ghost use Rattle.std.specs.List.{All, list_any};
ghost use Rattle.cmm_walks.specs.Labels.{unlabelled, IsUnlabelled};
ghost use Rattle.walk_tables.specs.Table.{step_at, slot_below, AreLinked};
ghost use Rattle.cmm_walks.specs.First.{place_within, binds_address, binds_address_to, own_limit, IsSearch, AreSlotSeeds, IsLeastTold, IsFirstTold};

use crate::groups::{NodeGroup, members, nodes_before, nodes_by_slot};
use crate::labels::{NodeLabels, Seed, step_of};
use crate::limits::{Limits, Part, with_part};
use crate::seeds::{Goal, add_bindings, point_seeds, use_seeds};
use std::alloc::{AllocError, Global};
use walk_tables::{Node, Step};

/// Whether it binds an address.
fn binds_address(step: Step) -> bool
    ensures { result ≡ binds_address step }
{
    match step {
        Step::Binds {
            slot: _,
            address,
            at: _,
        } => address,
        Step::Quiet => false,
        Step::Uses { slot: _, at: _ } => false,
        Step::Passes { at: _ } => false,
    }
}

/// Whether a node binds an address.
fn some_address(nodes: &[Node]) -> bool
    ensures { result ≡ list_any (λ n. binds_address n.step) nodes.now }
{
    nodes.iter().any(|node| binds_address(node.step))
}

/// The slot, or 0.
fn slot_of(step: Step) -> usize
    ensures { slot_below (suc result) step }
{
    match step {
        Step::Quiet => 0,
        Step::Binds {
            slot,
            address: _,
            at: _,
        } => slot,
        Step::Uses { slot, at: _ } => slot,
        Step::Passes { at: _ } => 0,
    }
}

/// A slot that no node's passes.
fn greatest_slot(nodes: &[Node]) -> usize
    ensures { All (λ n. slot_below (suc result) n.step) nodes.now }
{
    let mut greatest: usize = 0;
    for node in nodes {
        greatest = greatest.max(slot_of(node.step));
    }
    greatest
}

/// The place, or 0.
fn place_of(step: Step) -> u32
    ensures { place_within result step }
{
    match step {
        Step::Quiet => 0,
        Step::Binds {
            slot: _,
            address: _,
            at,
        } => at,
        Step::Uses { slot: _, at } => at,
        Step::Passes { at } => at,
    }
}

/// A place that no node's passes.
fn greatest_place(nodes: &[Node]) -> u32
    ensures { All (λ n. place_within result n.step) nodes.now }
{
    let mut greatest: u32 = 0;
    for node in nodes {
        greatest = greatest.max(place_of(node.step));
    }
    greatest
}

/// Whether it binds an address to the slot.
fn binds_address_to(step: Step, slot: usize) -> bool
    ensures { result ≡ binds_address_to slot step }
{
    match step {
        Step::Quiet => false,
        Step::Binds {
            slot: own,
            address,
            at: _,
        } => address && own == slot,
        Step::Uses { slot: _, at: _ } => false,
        Step::Passes { at: _ } => false,
    }
}

/// Whether one of the nodes binds an address to the slot.
fn some_address_to(nodes: &[Node], slot: usize, places: &[usize]) -> bool
    ensures { result ≡ list_any (λ p. binds_address_to slot (step_at nodes.now p)) places.now }
{
    places
        .iter()
        .any(|place| binds_address_to(step_of(nodes, *place), slot))
}

/// The nodes of a function, with those before each and those that name each slot.
#[derive(Drop)]
struct Search<'a> {
    nodes: &'a [Node],
    before: Vec<NodeGroup>,
    mentions: Vec<NodeGroup>,
    bound: usize,
}

impl<'a> Search<'a> {
    /// Adds the seeds of the bindings of addresses to the slot that are live at a frame point.
    fn search_slot(
        &self,
        alloc: Global,
        goal: Goal,
        slot: usize,
        labels: &mut NodeLabels,
        found: &mut Vec<Seed>,
    ) -> Result<(), AllocError>
        requires search { IsSearch self.now }
        requires fits { own_limit goal < unlabelled }
        requires unlabelled { IsUnlabelled (length self.now.nodes.now) labels.old }
        ensures unlabelled { IfOk result (λ _.
            IsUnlabelled (length self.now.nodes.now) labels.new) }
        ensures seeds { IfOk result (λ _.
            AreSlotSeeds self.now.nodes.now goal slot found.old.items found.new.items) }
    {
        let places = members(&self.mentions, slot);
        if !some_address_to(self.nodes, slot, places) {
            return Ok(());
        }
        let mut uses = use_seeds(alloc, self.nodes, goal, slot, places)?;
        labels.fill(self.nodes, &self.before, slot, &mut uses)?;
        let mut points = point_seeds(alloc, self.nodes, goal, labels)?;
        labels.clear();
        labels.fill(self.nodes, &self.before, slot, &mut points)?;
        add_bindings(self.nodes, goal, labels, slot, places, found)?;
        labels.clear();
        Ok(())
    }

    /// The least limit for the part of the goal within which an address is live, if there is one.
    fn least(&self, alloc: Global, entry: usize, goal: Goal) -> Result<Option<u32>, AllocError>
        requires search { IsSearch self.now }
        requires fits { own_limit goal < unlabelled }
        ensures { IfOk result (λ told. IsLeastTold self.now.nodes.now entry goal told) }
    {
        let mut labels = NodeLabels::new(alloc, self.nodes.len())?;
        let mut found = Vec::new(alloc);
        for slot in 0..self.bound {
            self.search_slot(alloc, goal, slot, &mut labels, &mut found)?;
        }
        labels.fill(self.nodes, &self.before, self.bound, &mut found)?;
        Ok(labels.get(entry))
    }

    /// The least use, then the least frame point, then the least binding of an address that is live there, or
    /// `None` where none is.
    fn first(
        &self,
        alloc: Global,
        entry: usize,
        greatest: u32,
    ) -> Result<Option<Limits>, AllocError>
        requires search { IsSearch self.now }
        requires places { All (λ n. place_within greatest n.step) self.now.nodes.now }
        ensures { IfOk result (λ told. IsFirstTold self.now.nodes.now entry told) }
    {
        let all = Limits {
            bound: greatest,
            point: greatest,
            used: greatest,
        };
        let of_all = Goal {
            limits: all,
            part: Part::Used,
        };
        let Some(used) = self.least(alloc, entry, of_all)? else {
            return Ok(None);
        };
        let of_use = Goal {
            limits: with_part(all, Part::Used, used),
            part: Part::Point,
        };
        let Some(point) = self.least(alloc, entry, of_use)? else {
            return Ok(None);
        };
        let of_point = Goal {
            limits: with_part(of_use.limits, Part::Point, point),
            part: Part::Bound,
        };
        let Some(bound) = self.least(alloc, entry, of_point)? else {
            return Ok(None);
        };
        Ok(Some(with_part(of_point.limits, Part::Bound, bound)))
    }
}

/// The least use, then the least frame point, then the least binding of an address that is live there, or
/// `None` where none is. The only error is want of memory.
pub fn first_live(alloc: Global, nodes: &[Node], entry: usize) -> Result<Option<Limits>, AllocError>
    requires { AreLinked nodes.now }
    ensures { IfOk result (λ told. IsFirstTold nodes.now entry told) }
{
    if !some_address(nodes) {
        return Ok(None);
    }
    let greatest = greatest_place(nodes);
    let before = nodes_before(alloc, nodes)?;
    let mentions = nodes_by_slot(alloc, nodes, greatest_slot(nodes))?;
    // a length is above the greatest slot without a sum that could pass the numbers
    let bound = mentions.len();
    let search = Search {
        nodes,
        before,
        mentions,
        bound,
    };
    search.first(alloc, entry, greatest)
}
