//! What the search for an address begins with: uses, frame points and bindings within limits.
ghost use Rattle.std.specs.Prelude.{◌≡◌, ◌++◌, filter_map, flat_map, option_to_list, IfOk};
ghost use Rattle.walk_tables.specs.Table.{step_at, next_at};
ghost use Rattle.cmm_walks.specs.Seeds.{within, used_label, point_label, bound_label, later, seed_with, use_seed, point_seed, binding_seed, binding_seeds};

use crate::labels::{NodeLabels, Seed, step_of};
use crate::limits::{Limits, Part};
use std::alloc::{AllocError, Global};
use walk_tables::{Node, Step};

/// What is searched for: the least of one part, with all parts within limits.
#[derive(Clone, Copy)]
pub struct Goal {
    /// The greatest place of each part.
    pub limits: Limits,
    /// The part whose least place is searched for.
    pub part: Part,
}

/// The label, if the place is within the limit.
fn within(limit: u32, at: u32, label: u32) -> Option<u32>
    ensures { result ≡ within limit at label }
{
    if at <= limit { Some(label) } else { None }
}

/// The label of a use at this place.
fn used_label(goal: Goal, at: u32) -> Option<u32>
    ensures { result ≡ used_label goal at }
{
    match goal.part {
        Part::Used => within(goal.limits.used, at, at),
        Part::Point => within(goal.limits.used, at, 0),
        Part::Bound => within(goal.limits.used, at, 0),
    }
}

/// The label of a frame point at this place.
fn point_label(goal: Goal, at: u32) -> Option<u32>
    ensures { result ≡ point_label goal at }
{
    match goal.part {
        Part::Used => within(goal.limits.point, at, 0),
        Part::Point => within(goal.limits.point, at, at),
        Part::Bound => within(goal.limits.point, at, 0),
    }
}

/// The label of a binding at this place.
fn bound_label(goal: Goal, at: u32) -> Option<u32>
    ensures { result ≡ bound_label goal at }
{
    match goal.part {
        Part::Used => within(goal.limits.bound, at, 0),
        Part::Point => within(goal.limits.bound, at, 0),
        Part::Bound => within(goal.limits.bound, at, at),
    }
}

/// The greater of two labels, if there are two.
fn later(one: Option<u32>, other: Option<u32>) -> Option<u32>
    ensures { result ≡ later one other }
{
    match one {
        None => None,
        Some(one) => match other {
            None => None,
            Some(other) => Some(if one < other { other } else { one }),
        },
    }
}

/// A seed at this node, if there is a label.
fn seed_with(place: usize, label: Option<u32>) -> Option<Seed>
    ensures { result ≡ seed_with place label }
{
    match label {
        None => None,
        Some(label) => Some(Seed { label, place }),
    }
}

/// The seed of a node that uses the slot.
fn use_seed(nodes: &[Node], goal: Goal, slot: usize, place: usize) -> Option<Seed>
    ensures { result ≡ use_seed goal slot place (step_at nodes.now place) }
{
    match step_of(nodes, place) {
        Step::Quiet => None,
        Step::Binds {
            slot: _,
            address: _,
            at: _,
        } => None,
        Step::Uses { slot: own, at } => {
            if own == slot {
                seed_with(place, used_label(goal, at))
            } else {
                None
            }
        }
        Step::Passes { at: _ } => None,
    }
}

/// The seed of a node that is a frame point, from its own label.
fn point_seed(nodes: &[Node], goal: Goal, labels: &NodeLabels, place: usize) -> Option<Seed>
    ensures { result ≡ point_seed goal labels.now.of.items place (step_at nodes.now place) }
{
    match step_of(nodes, place) {
        Step::Quiet => None,
        Step::Binds {
            slot: _,
            address: _,
            at: _,
        } => None,
        Step::Uses { slot: _, at: _ } => None,
        Step::Passes { at } => seed_with(place, later(labels.get(place), point_label(goal, at))),
    }
}

/// The seed of a node that binds an address to the slot, from the label of a node after it.
fn binding_seed(
    step: Step,
    goal: Goal,
    labels: &NodeLabels,
    slot: usize,
    place: usize,
    next: usize,
) -> Option<Seed>
    ensures { result ≡ binding_seed goal labels.now.of.items slot place step next }
{
    match step {
        Step::Quiet => None,
        Step::Binds {
            slot: own,
            address,
            at,
        } => {
            if address && own == slot {
                seed_with(place, later(labels.get(next), bound_label(goal, at)))
            } else {
                None
            }
        }
        Step::Uses { slot: _, at: _ } => None,
        Step::Passes { at: _ } => None,
    }
}

/// Adds the seed, if there is one.
fn push_some(seeds: &mut Vec<Seed>, seed: Option<Seed>) -> Result<(), AllocError>
    ensures { IfOk result (λ _. seeds.new.items ≡ seeds.old.items ++ option_to_list seed) }
{
    match seed {
        None => Ok(()),
        Some(seed) => {
            seeds.push(seed)?;
            Ok(())
        }
    }
}

/// The seeds of those of the nodes that use the slot. The only error is want of memory.
pub fn use_seeds(
    alloc: Global,
    nodes: &[Node],
    goal: Goal,
    slot: usize,
    places: &[usize],
) -> Result<Vec<Seed>, AllocError>
    ensures { IfOk result (λ seeds. seeds.items
        ≡ filter_map (λ p. use_seed goal slot p (step_at nodes.now p)) places.now) }
{
    let mut seeds = Vec::new(alloc);
    for place in places {
        push_some(&mut seeds, use_seed(nodes, goal, slot, *place))?;
    }
    Ok(seeds)
}

/// The seeds of those of the labelled nodes that are frame points.
/// The only error is want of memory.
pub fn point_seeds(
    alloc: Global,
    nodes: &[Node],
    goal: Goal,
    labels: &NodeLabels,
) -> Result<Vec<Seed>, AllocError>
    ensures { IfOk result (λ seeds. seeds.items
        ≡ filter_map (λ p. point_seed goal labels.now.of.items p (step_at nodes.now p))
        labels.now.queue.items) }
{
    let mut seeds = Vec::new(alloc);
    for place in &labels.queue {
        push_some(&mut seeds, point_seed(nodes, goal, labels, *place))?;
    }
    Ok(seeds)
}

/// The nodes that may come after a node; past the last node there are none.
fn next_of(nodes: &[Node], place: usize) -> &[usize]
    ensures { result.now ≡ next_at nodes.now place }
{
    match nodes.get(place) {
        None => &[],
        Some(node) => node.next.as_slice(),
    }
}

/// Adds the seeds of a node, if it binds an address to the slot.
fn add_binding(
    nodes: &[Node],
    goal: Goal,
    labels: &NodeLabels,
    slot: usize,
    place: usize,
    seeds: &mut Vec<Seed>,
) -> Result<(), AllocError>
    ensures { IfOk result (λ _. seeds.new.items ≡ seeds.old.items
        ++ binding_seeds goal labels.now.of.items nodes.now slot place) }
{
    let step = step_of(nodes, place);
    for next in next_of(nodes, place) {
        push_some(seeds, binding_seed(step, goal, labels, slot, place, *next))?;
    }
    Ok(())
}

/// Adds the seeds of those of the nodes that bind an address to the slot.
/// The only error is want of memory.
pub fn add_bindings(
    nodes: &[Node],
    goal: Goal,
    labels: &NodeLabels,
    slot: usize,
    places: &[usize],
    seeds: &mut Vec<Seed>,
) -> Result<(), AllocError>
    ensures { IfOk result (λ _. seeds.new.items ≡ seeds.old.items
        ++ flat_map (binding_seeds goal labels.now.of.items nodes.now slot) places.now) }
{
    for place in places {
        add_binding(nodes, goal, labels, slot, *place, seeds)?;
    }
    Ok(())
}
