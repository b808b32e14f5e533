//! The numbers of webs.
ghost use Rattle.std.specs.Prelude.{◌≡◌, ◌+◌, ◌<◌, ◌≤◌, ℕ, length, slice_index, IfOk};
ghost use Rattle.dataflow.specs.Rows.{set_in_row};
ghost use Rattle.mach_ir.specs.Sizes.{number_limit};
ghost use Rattle.split.specs.Writes.{listed_writes};
ghost use Rattle.split.specs.Names.{new_number, AreNames, find_coming, or_name, name_of};

use crate::writes::Writes;
use dataflow::Rows;
use std::alloc::{AllocError, Global};

/// The number of a web of this register, whose first write has this index.
fn new_number(writes: &Writes, free: u32, number: u32, label: u32) -> u32
    requires { free + label < number_limit }
    ensures { result ≡ new_number writes.now free number label }
{
    if writes.is_first(number, label) {
        number
    } else {
        free + label
    }
}

/// The number of each write. The only error is want of memory.
pub fn names_of(
    alloc: Global,
    writes: &Writes,
    labels: &[u32],
    free: u32,
) -> Result<Vec<u32>, AllocError>
    requires least { (w : ℕ) → w < length labels.now → slice_index labels.now w ≤ w }
    requires room { free + length (listed_writes writes.now) < number_limit }
    ensures { IfOk result (λ names. AreNames writes.now labels.now free names.items) }
{
    let mut names = Vec::with_capacity(alloc, writes.all.len())?;
    for (index, write) in writes.all.iter().enumerate() {
        let label = match labels.get(index) {
            None => 0,
            Some(label) => *label,
        };
        let name = new_number(writes, free, write.number, label);
        names.push(name)?;
    }
    Ok(names)
}

fn or_name(number: u32, name: Option<u32>) -> u32
    ensures { result ≡ or_name number name }
{
    match name {
        None => number,
        Some(name) => name,
    }
}

/// The number of a write that was found; a register of which there is none keeps its own.
pub fn name_of(names: &[u32], number: u32, found: Option<u32>) -> u32
    ensures { result ≡ name_of names.now number found }
{
    match found {
        None => number,
        Some(index) => or_name(number, names.get(index as usize).copied()),
    }
}

/// The first of these writes that comes to the place.
pub fn find_coming(rows: &Rows, place: usize, among: &[u32]) -> Option<u32>
    ensures { result ≡ find_coming (set_in_row rows.now.rows.items place) among.now }
{
    for index in among {
        if rows.contains(place, *index) {
            return Some(*index);
        }
    }
    None
}
