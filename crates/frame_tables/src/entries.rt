//! Descriptors of frame points, from what is live after them.
ghost use Rattle.std.specs.Prelude.{◌≡◌, ◌+◌, ◌*◌, ◌<◌, ◌≤◌, ◌^◌, ◌++◌, length, IfOk};
ghost use Rattle.std.specs.List.{All};
ghost use Rattle.lin_laws.specs.Numbers.{entry_of, trap_entries_from};
ghost use Rattle.frame_tables.specs.Described.{described, entry_if, AreDescribed};

use crate::after::Point;
use bs_bits::Bits;
use dataflow::Rows;
use lin_flow::lines::REGISTERS;
use lin_ir::Descr;
use mach_ir::Seq;
use std::alloc::{AllocError, Global};

/// How a descriptor names the location of this number where so many traps are pushed: a register r
/// by 2 * r + 1, a slot by its offset from sp.
fn entry_of(number: u32, traps: u32) -> u32
    requires { 8 * number + 16 * traps < 2 ^ 32 }
    ensures { result ≡ entry_of traps number }
{
    if number < REGISTERS {
        2 * number + 1
    } else {
        8 * (number - REGISTERS) + 16 * traps
    }
}

/// Adds the entry of the location of this number, if it is a member.
fn push_entry(
    entries: &mut Vec<u32>,
    member: bool,
    number: u32,
    traps: u32,
) -> Result<(), AllocError>
    requires { 8 * number + 16 * traps < 2 ^ 32 }
    ensures { IfOk result (λ _.
        entries.new.items ≡ entries.old.items ++ entry_if member (entry_of traps number)) }
{
    if !member {
        return Ok(());
    }
    entries.push(entry_of(number, traps))?;
    Ok(())
}

/// The entries of the locations whose numbers are in the set, in the order of their numbers.
fn entries_of(alloc: Global, set: &Bits, traps: u32) -> Result<Seq<u32>, AllocError>
    requires { 8 * length set.now + 16 * traps < 2 ^ 32 }
    ensures { IfOk result (λ entries. entries ≡ trap_entries_from traps 0 set.now) }
{
    let mut entries = Vec::new(alloc);
    for number in 0..set.size() {
        push_entry(&mut entries, set.contains(number), number, traps)?;
    }
    Ok(Seq::from_vec(entries))
}

/// The descriptor of a frame point after which is live what is in the set.
fn describe(alloc: Global, frame: u32, point: Point, set: &Bits) -> Result<Descr, AllocError>
    requires { frame + (8 * length set.now + 16 * point.traps) < 2 ^ 32 }
    ensures { IfOk result (λ d. d ≡ described frame point set.now) }
{
    let traps = point.traps as u32;
    let entries = entries_of(alloc, set, traps)?;
    Ok(Descr {
        after: point.place,
        size: frame + 16 * traps,
        entries,
    })
}

/// The descriptors of frame points. What is live after them is in the rows from `first` on.
/// The only error is want of memory.
pub fn describe_all(
    alloc: Global,
    frame: u32,
    points: &[Point],
    first: usize,
    live: &Rows,
) -> Result<Seq<Descr>, AllocError>
    requires rows { first + length points.now ≤ length live.now.rows.items }
    requires sizes { All (λ set. 8 * length set < 2 ^ 31) live.now.rows.items }
    requires small { All (λ (point : Point). frame + 16 * point.traps < 2 ^ 31) points.now }
    ensures { IfOk result (λ ds. AreDescribed frame first points.now live.now.rows.items ds) }
{
    let mut descrs = Vec::new(alloc);
    for k in 0..points.len() {
        let descr = describe(alloc, frame, points[k], live.at(first + k))?;
        descrs.push(descr)?;
    }
    Ok(Seq::from_vec(descrs))
}
