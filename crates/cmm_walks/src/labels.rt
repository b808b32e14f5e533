//! Labels of nodes: each node gets the least label of the seeds that it leads to.
ghost use Rattle.std.specs.Prelude.{◌≡◌, ◌<◌, length, IfOk};
ghost use Rattle.std.specs.List.{All};
ghost use Rattle.cmm_walks.specs.Groups.{AreBefore};
ghost use Rattle.walk_tables.specs.Table.{step_at};
ghost use Rattle.cmm_walks.specs.Labels.{label_at, binds_slot, IsUnlabelled, Lowered, HasLabelledQueue, IsSpreading, LowersBefore, Settles, FirstLabels, known_label};

use crate::groups::{NodeGroup, members};
use std::alloc::{AllocError, Global};
use walk_tables::{Node, Step};

/// What stands for no label: above each.
const UNLABELLED: u64 = 0x1_0000_0000;

/// A label that a node begins with.
#[derive(Clone, Copy)]
pub struct Seed {
    /// The label itself.
    pub label: u32,
    /// The number of the node.
    pub place: usize,
}

/// The labels of nodes, and the nodes that were labelled, in their order; those before `done` have passed
/// their labels on.
#[derive(Drop)]
pub struct NodeLabels {
    /// The label of each node by its number, or 2^32 where it has none.
    pub of: Vec<u64>,
    /// The numbers of the nodes that were labelled, in the order in which they were.
    pub queue: Vec<usize>,
    /// How many of the queue have passed their labels on.
    pub done: usize,
}

/// What a walk does at a node; past the last one nothing.
pub fn step_of(nodes: &[Node], place: usize) -> Step
    ensures { result ≡ step_at nodes.now place }
{
    match nodes.get(place) {
        None => Step::Quiet,
        Some(node) => node.step,
    }
}

/// Whether the step binds the slot.
fn binds(step: Step, slot: usize) -> bool
    ensures { result ≡ binds_slot slot step }
{
    match step {
        Step::Quiet => false,
        Step::Binds {
            slot: own,
            address: _,
            at: _,
        } => own == slot,
        Step::Uses { slot: _, at: _ } => false,
        Step::Passes { at: _ } => false,
    }
}

impl NodeLabels {
    /// So many nodes without labels. The only error is want of memory.
    pub fn new(alloc: Global, count: usize) -> Result<Self, AllocError>
        ensures { IfOk result (λ labels. IsUnlabelled count labels) }
    {
        let mut of = Vec::with_capacity(alloc, count)?;
        for _node in 0..count {
            of.push(UNLABELLED)?;
        }
        Ok(NodeLabels {
            of,
            queue: Vec::new(alloc),
            done: 0,
        })
    }

    /// The label of a node, or `UNLABELLED`.
    fn at(&self, place: usize) -> u64
        ensures { result ≡ label_at self.now.of.items place }
    {
        match self.of.get(place) {
            None => UNLABELLED,
            Some(label) => *label,
        }
    }

    /// The label of a node, if it has one.
    pub fn get(&self, place: usize) -> Option<u32>
        ensures { result ≡ known_label self.now.of.items place }
    {
        let label = self.at(place);
        if label < UNLABELLED {
            Some(label as u32)
        } else {
            None
        }
    }

    /// Gives a node this label, if it is less than that which it has.
    fn lower(&mut self, place: usize, label: u64) -> Result<(), AllocError>
        requires { place < length self.old.of.items }
        ensures { IfOk result (λ _. Lowered self.old self.new place label) }
    {
        let former = self.of[place];
        if label < former {
            self.of[place] = label;
            self.queue.push(place)?;
            Ok(())
        } else {
            Ok(())
        }
    }

    /// Passes the label of a node on to the nodes before it that do not bind the slot.
    fn lower_before(
        &mut self,
        nodes: &[Node],
        before: &[NodeGroup],
        slot: usize,
        place: usize,
    ) -> Result<(), AllocError>
        requires before { AreBefore nodes.now before.now }
        requires spreading { IsSpreading nodes.now slot self.old }
        ensures { IfOk result (λ _. LowersBefore nodes.now slot place self.old self.new) }
    {
        let label = self.at(place);
        for q in members(before, place) {
            if !binds(step_of(nodes, *q), slot) {
                self.lower(*q, label)?;
            }
        }
        Ok(())
    }

    /// Passes all labels on.
    fn settle(
        &mut self,
        nodes: &[Node],
        before: &[NodeGroup],
        slot: usize,
    ) -> Result<(), AllocError>
        requires before { AreBefore nodes.now before.now }
        requires spreading { IsSpreading nodes.now slot self.old }
        ensures { IfOk result (λ _. Settles nodes.now slot self.old self.new) }
    {
        while self.done < self.queue.len() {
            let place = self.queue[self.done];
            self.lower_before(nodes, before, slot, place)?;
            self.done += 1;
        }
        Ok(())
    }

    /// Labels each node with the least label of the seeds that it leads to without binding the slot. It takes
    /// the seeds from the least label up, so that each node is visited once.
    /// The only error is want of memory.
    pub fn fill(
        &mut self,
        nodes: &[Node],
        before: &[NodeGroup],
        slot: usize,
        seeds: &mut Vec<Seed>,
    ) -> Result<(), AllocError>
        requires before { AreBefore nodes.now before.now }
        requires unlabelled { IsUnlabelled (length nodes.now) self.old }
        requires within { All (λ s. s.place < length nodes.now) seeds.old.items }
        ensures { IfOk result (λ _. FirstLabels nodes.now slot seeds.old.items self.new) }
    {
        seeds.sort_unstable_by_key(|seed| seed.label);
        for seed in seeds.as_slice() {
            self.lower(seed.place, u64::from(seed.label))?;
            self.settle(nodes, before, slot)?;
        }
        Ok(())
    }

    /// Takes all labels off.
    pub fn clear(&mut self)
        requires { HasLabelledQueue self.old }
        ensures { IsUnlabelled (length self.old.of.items) self.new }
    {
        for i in 0..self.queue.len() {
            let place = self.queue[i];
            self.of[place] = UNLABELLED;
        }
        self.queue.clear();
        self.done = 0;
    }
}
