//! Numbers of nodes in groups: those before each node, and those that name each slot.
ghost use Rattle.std.specs.Prelude.{◌≡◌, ◌<◌, ◌↔◌, ◌⊎◌, ℕ, suc, [], length, IfOk, Contains};
ghost use Rattle.std.specs.List.{All};
ghost use Rattle.cmm_walks.specs.Groups.{members, Added, HasSlotAdded, AreBefore, AreMentions};
ghost use Rattle.walk_tables.specs.Table.{slot_below, AreLinked, AreNodes};

use std::alloc::{AllocError, Global};
use walk_tables::{Node, Step};

/// Numbers of nodes.
#[derive(Drop)]
pub struct NodeGroup {
    /// The numbers themselves.
    pub members: Vec<usize>,
}

/// So many empty groups.
fn groups(alloc: Global, count: usize) -> Result<Vec<NodeGroup>, AllocError>
    ensures len { IfOk result (λ groups. length groups.items ≡ count) }
    ensures empty { IfOk result (λ groups. (k : ℕ) → members groups.items k ≡ []) }
{
    let mut groups = Vec::with_capacity(alloc, count)?;
    for _group in 0..count {
        groups.push(NodeGroup {
            members: Vec::new(alloc),
        })?;
    }
    Ok(groups)
}

/// Adds a member to a group.
fn add(groups: &mut Vec<NodeGroup>, k: usize, member: usize) -> Result<(), AllocError>
    requires { k < length groups.old.items }
    ensures { IfOk result (λ _. Added groups.old.items groups.new.items k member) }
{
    let group = &mut groups[k];
    group.members.push(member)?;
    Ok(())
}

/// Adds a member to each of these groups.
fn add_to_all(
    groups: &mut Vec<NodeGroup>,
    targets: &[usize],
    member: usize,
) -> Result<(), AllocError>
    requires { All (λ k. k < length groups.old.items) targets.now }
    ensures len { IfOk result (λ _. length groups.new.items ≡ length groups.old.items) }
    ensures exact { IfOk result (λ _. (j x : ℕ) → Contains (members groups.new.items j) x
        ↔ (Contains (members groups.old.items j) x ⊎ (Contains targets.now j × (member ≡ x)))) }
{
    for k in targets {
        add(groups, *k, member)?;
    }
    Ok(())
}

/// The nodes that may come before each node. The only error is want of memory.
pub fn nodes_before(alloc: Global, nodes: &[Node]) -> Result<Vec<NodeGroup>, AllocError>
    requires { AreLinked nodes.now }
    ensures { IfOk result (λ before. AreBefore nodes.now before.items) }
{
    let mut before = groups(alloc, nodes.len())?;
    let mut number: usize = 0;
    for node in nodes {
        add_to_all(&mut before, node.next.as_slice(), number)?;
        number += 1;
    }
    Ok(before)
}

/// Adds a node to the group of the slot that it names, if it names one.
fn add_slot(groups: &mut Vec<NodeGroup>, step: Step, number: usize) -> Result<(), AllocError>
    requires { slot_below (length groups.old.items) step }
    ensures { IfOk result (λ _. HasSlotAdded groups.old.items groups.new.items step number) }
{
    match step {
        Step::Quiet => Ok(()),
        Step::Binds {
            slot,
            address: _,
            at: _,
        } => {
            add(groups, slot, number)?;
            Ok(())
        }
        Step::Uses { slot, at: _ } => {
            add(groups, slot, number)?;
            Ok(())
        }
        Step::Passes { at: _ } => Ok(()),
    }
}

/// The nodes that name each slot up to the greatest. The only error is want of memory.
pub fn nodes_by_slot(
    alloc: Global,
    nodes: &[Node],
    greatest: usize,
) -> Result<Vec<NodeGroup>, AllocError>
    requires { AreNodes (suc greatest) nodes.now }
    ensures len { IfOk result (λ mentions. length mentions.items ≡ suc greatest) }
    ensures named { IfOk result (λ mentions. AreMentions nodes.now mentions.items) }
{
    let mut mentions = groups(alloc, greatest)?;
    mentions.push(NodeGroup {
        members: Vec::new(alloc),
    })?;
    let mut number: usize = 0;
    for node in nodes {
        add_slot(&mut mentions, node.step, number)?;
        number += 1;
    }
    Ok(mentions)
}

/// The members of a group. There are none past the last group.
pub fn members(groups: &[NodeGroup], k: usize) -> &[usize]
    ensures { result.now ≡ members groups.now k }
{
    match groups.get(k) {
        None => &[],
        Some(group) => group.members.as_slice(),
    }
}
