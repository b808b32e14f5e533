//! Which writes have one number.
ghost use Rattle.std.specs.Prelude.{◌≡◌, ◌<◌, ◌≤◌, ℕ, All, map, length, slice_index, IfOk};
ghost use Rattle.mach_ir.specs.Sizes.{number_limit};
ghost use Rattle.split_rules.specs.Order.{writes_of};
ghost use Rattle.split.specs.Writes.{AreWrites};
ghost use Rattle.split.specs.Reach.{AreReaching};
ghost use Rattle.split.specs.Joins.{replaced_label, joined_labels, Joins, AreIndexes, JoinsReads, AreWebs};

use crate::writes::Writes;
use dataflow::Rows;
use mach_ir::{Mach, Reg};
use std::alloc::{AllocError, Global};

/// Each write with a label of its own.
fn own_labels(alloc: Global, count: u32) -> Result<Vec<u32>, AllocError>
    ensures len { IfOk result (λ labels. length labels.items ≡ count) }
    ensures own { IfOk result (λ labels. (w : ℕ) → w < count → slice_index labels.items w ≡ w) }
{
    let mut labels = Vec::with_capacity(alloc, count as usize)?;
    for label in 0..count {
        labels.push(label)?;
    }
    Ok(labels)
}

/// Puts one label in the place of another.
fn relabel(labels: &mut [u32], from: u32, to: u32)
    ensures { labels.new ≡ map (replaced_label from to) labels.old }
{
    for label in labels.iter_mut() {
        if *label == from {
            *label = to;
        }
    }
}

/// Gives two writes one label, the lesser of theirs.
fn join(labels: &mut Vec<u32>, one: u32, other: u32)
    requires one { one < length labels.old.items }
    requires other { other < length labels.old.items }
    ensures { labels.new.items
        ≡ joined_labels labels.old.items (slice_index labels.old.items one)
        (slice_index labels.old.items other) }
{
    let one_label = labels[one as usize];
    let other_label = labels[other as usize];
    let to = one_label.min(other_label);
    let from = one_label.max(other_label);
    if from != to {
        relabel(labels.as_mut_slice(), from, to);
    }
}

/// Gives those of these writes that come to the place one label.
fn join_at(labels: &mut Vec<u32>, members: &[u32], rows: &Rows, place: usize)
    requires { All (λ w. w < length labels.old.items) members.now }
    ensures { Joins labels.old.items labels.new.items members.now rows.now.rows.items place }
{
    let mut first: Option<u32> = None;
    for index in members {
        if rows.contains(place, *index) {
            match first {
                None => {
                    first = Some(*index);
                }
                Some(one) => {
                    join(labels, one, *index);
                }
            }
        }
    }
}

/// The same for each operand of the instruction at the place.
fn join_reads(labels: &mut Vec<u32>, writes: &Writes, rows: &Rows, place: usize, args: &[Reg])
    requires { AreIndexes writes.now (length labels.old.items) }
    ensures { JoinsReads labels.old.items labels.new.items writes.now rows.now.rows.items place
        args.now }
{
    for reg in args {
        join_at(labels, writes.members(reg.number), rows, place);
    }
}

/// A label for each write, the index of the first of those that it is joined with.
/// The only error is want of memory.
pub fn webs_of(
    alloc: Global,
    mach: &Mach,
    free: u32,
    writes: &Writes,
    rows: &Rows,
) -> Result<Vec<u32>, AllocError>
    requires few { length (writes_of mach.now) < number_limit }
    requires writes { AreWrites mach.now free writes.now }
    ensures least { IfOk result (λ labels. (w : ℕ) → w < length labels.items →
        slice_index labels.items w ≤ w) }
    ensures webs { IfOk result (λ labels. AreReaching mach.now writes.now rows.now.rows.items →
        AreWebs mach.now writes.now rows.now.rows.items labels.items) }
{
    let mut labels = own_labels(alloc, writes.all.len() as u32)?;
    for (place, instr) in mach.code.as_slice().iter().enumerate() {
        join_reads(&mut labels, writes, rows, place, instr.args.as_slice());
    }
    Ok(labels)
}
