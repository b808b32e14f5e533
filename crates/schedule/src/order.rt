//! The lines of a run by falling heights.
ghost use Rattle.std.specs.Prelude.{◌≡◌, ◌++◌, [], IfOk, OnOk};
ghost use Rattle.std.specs.List.Sorted.{IsSortedBy, IsStableBy};
ghost use Rattle.schedule_rules.specs.Straight.{ranked};
ghost use Rattle.schedule_rules.specs.Orders.{scheduled_run};
ghost use Rattle.schedule.specs.Order.{is_lower, lines_back, ranks_back};

use crate::heights::Later;
use lin_ir::Line;
use std::alloc::{AllocError, Global};

/// A line of a run, with its height.
#[derive(Drop)]
struct RankedLine {
    line: Line,
    height: u32,
}

/// The lines of a run with their heights, the last first. They are taken out of the run.
fn ranked(alloc: Global, run: &mut Vec<Line>) -> Result<Vec<RankedLine>, AllocError>
    ensures ranked { IfOk result (λ lines. ranks_back lines.items ≡ ranked run.old.items) }
    ensures empty { IfOk result (λ _. run.new.items ≡ []) }
{
    let mut later = Later::none(alloc);
    let mut lines = Vec::with_capacity(alloc, run.len())?;
    while let Some(line) = run.pop() {
        let height = later.height_of(&line)?;
        later.put(&line, height)?;
        lines.push(RankedLine { line, height })?;
    }
    Ok(lines)
}

/// Sorts the lines by rising height. Those as high stay in their order.
fn sort_by_height(lines: &mut Vec<RankedLine>) -> Result<(), AllocError>
    ensures sorted { OnOk result (IsSortedBy is_lower lines.new.items) }
    ensures stable { OnOk result (IsStableBy is_lower lines.old.items lines.new.items) }
{
    lines.sort_by_key(|ranked| ranked.height)?;
    Ok(())
}

/// Adds the lines, the last first.
fn push_back(made: &mut Vec<Line>, mut lines: Vec<RankedLine>) -> Result<(), AllocError>
    ensures { IfOk result (λ _. made.new.items ≡ made.old.items ++ lines_back lines.items) }
{
    while let Some(next) = lines.pop() {
        let RankedLine { line, height: _ } = next;
        made.push(line)?;
    }
    Ok(())
}

/// Adds the lines of a run in their new order, and takes them out of the run. They come from the last
/// to the first and are sorted by rising height, so that of two as high the earlier stands later.
///
/// The time is that of a sort. The only error is want of memory.
pub fn push_scheduled(
    alloc: Global,
    made: &mut Vec<Line>,
    run: &mut Vec<Line>,
) -> Result<(), AllocError>
    ensures made { IfOk result (λ _. made.new.items ≡ made.old.items ++ scheduled_run run.old.items) }
    ensures run { IfOk result (λ _. run.new.items ≡ []) }
{
    let mut lines = ranked(alloc, run)?;
    sort_by_height(&mut lines)?;
    push_back(made, lines)
}
