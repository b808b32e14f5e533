//! The intervals of a function, by its flow graph and what is live in it.
ghost use Rattle.std.specs.Prelude.{◌≡◌, ◌+◌, ◌<◌, length, IfOk};
ghost use Rattle.dataflow.specs.Flow as flows;
ghost use Rattle.mach_ir.specs.Formed.{WellFormed};
ghost use Rattle.mach_ir.specs.Graph.{IsLiveMap};
ghost use Rattle.mach_ir.specs.Sizes.{IsCountable};
ghost use Rattle.mach_ir.specs.Walks.{IsRegister};
ghost use Rattle.mach_ir.specs.declared.reg.Reg.{Reg};
ghost use Rattle.mach_laws.specs.Graph.{IsFlowOf};
ghost use Rattle.linscan_rules.specs.Table.{IsIntervalsOf};
ghost use Rattle.linscan.specs.Listed.{AreRangesOf, AreRowsBelow};

use crate::ranges::Ranges;
use bs_words::List;
use dataflow::Flow;
use linscan_rules::{Interval, Intervals};
use liveness::{first_free, numbers_of};
use mach_ir::{LiveMap, Mach};
use std::alloc::{AllocError, Global};

/// The ranges of the registers of a function, whose numbers are below `size`: from the first place at
/// which each is read, written or live to the last. The entry writes the parameters, at place 0.
/// The only error is want of memory.
fn ranges_of(
    alloc: Global,
    mach: &Mach,
    live: &LiveMap,
    flow: &Flow,
    size: u32,
) -> Result<Ranges, AllocError>
    requires countable { IsCountable mach.now }
    requires live { IsLiveMap mach.now live.now }
    requires flow { IsFlowOf mach.now flow.now }
    requires edges { flows.IsFlowFormed flow.now }
    requires numbers { (r : Reg) → IsRegister mach.now r → r.number < size }
    ensures len { IfOk result (λ ranges. length ranges ≡ size) }
    ensures ranges { IfOk result (AreRangesOf mach.now) }
{
    let mut ranges = Ranges::new(alloc, size)?;
    let params = numbers_of(alloc, mach.params.as_slice())?;
    ranges.see_all(params.as_slice(), 0);
    for place in 0..mach.code.len() {
        let node = &flow.places[place];
        ranges.see_node(&live.before, node, place as u32);
    }
    Ok(ranges)
}

/// Adds the interval of the register of this number, if it has a range.
fn push_interval(list: &mut Vec<Interval>, ranges: &Ranges, register: u32) -> Result<(), AllocError>
    requires { AreRowsBelow ranges.now register list.old.items }
    ensures { IfOk result (λ _. AreRowsBelow ranges.now (register + 1) list.new.items) }
{
    match ranges.at(register) {
        None => Ok(()),
        Some(range) => {
            list.push(Interval {
                register,
                from: range.from,
                to: range.to,
            })?;
            Ok(())
        }
    }
}

/// The intervals of the registers numbered below `size`, by rising number.
/// The only error is want of memory.
fn list_of(alloc: Global, ranges: &Ranges, size: u32) -> Result<Vec<Interval>, AllocError>
    ensures { IfOk result (λ list. AreRowsBelow ranges.now size list.items) }
{
    let mut list = Vec::new(alloc);
    for register in 0..size {
        push_interval(&mut list, ranges, register)?;
    }
    Ok(list)
}

/// The intervals of the registers of a function, by what is live in it and its flow graph: one for each
/// register that is read, written or live at some place, by rising number.
///
/// The time is that of what each instruction reads and writes, and of what is live before it and after;
/// the memory is that of a table by register. The only error is want of memory.
pub fn intervals(
    alloc: Global,
    mach: &Mach,
    live: &LiveMap,
    flow: &Flow,
) -> Result<Intervals, AllocError>
    requires formed { WellFormed mach.now }
    requires countable { IsCountable mach.now }
    requires live { IsLiveMap mach.now live.now }
    requires flow { IsFlowOf mach.now flow.now }
    requires edges { flows.IsFlowFormed flow.now }
    ensures { IfOk result (IsIntervalsOf mach.now) }
{
    let size = first_free(mach);
    let ranges = ranges_of(alloc, mach, live, flow, size)?;
    let list = list_of(alloc, &ranges, size)?;
    Ok(Intervals {
        list: List::from_vec(list),
    })
}
