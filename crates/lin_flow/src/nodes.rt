//! The places of the flow graph that are positions.
ghost use Rattle.std.specs.Prelude.{◌≡◌, ◌<◌, ◌≤◌, ℕ, suc, true, option_copied, Some, length, slice_get, IfOk};
ghost use Rattle.lin_flow.specs.Labels.{line_of_label};
ghost use Rattle.lin_flow.specs.Search.{all_positions, groups_of};
ghost use Rattle.lin_flow.specs.Sizes.{HaveSmall};
ghost use Rattle.lin_flow.specs.Nodes.{landing_to, Landed, IsText, IsNodeOfLine, VisitedPosition, IsSearchReady, SpreadToAll};

use crate::control::{may_raise, places_after};
use crate::labels::LineLabels;
use crate::lines::{reads_of, writes_of};
use crate::search::Search;
use crate::tries::tries_after;
use bs_words::List;
use dataflow::Place;
use lin_ir::{Lin, Line};
use lin_laws::Position;
use mach_ir::Label;
use std::alloc::{AllocError, Global};

/// The place of the graph that has the number.
pub fn node_numbered(nodes: &[Place], number: u32) -> Option<&Place>
    ensures { option_copied result ≡ slice_get nodes.now number }
{
    nodes.get(number as usize)
}

/// The number of the position at the handler of the innermost trap, if one is pushed.
fn enter_innermost(
    alloc: Global,
    labels: &LineLabels,
    search: &mut Search,
    tries: &[u32],
) -> Result<Vec<u32>, AllocError>
    requires { (l : ℕ) → line_of_label labels.now l < length (groups_of search.old) }
    ensures { IfOk result (λ numbers.
        Landed search.old search.new (landing_to labels.now true tries.now) numbers.items) }
{
    let mut numbers = Vec::new(alloc);
    match tries {
        [] => Ok(numbers),
        [label, others @ ..] => {
            let number = search.enter(alloc, labels.place_of(Label(*label)), others)?;
            numbers.push(number)?;
            Ok(numbers)
        }
    }
}

/// The number of the position where a raise leads, if it leads to a handler of the function.
fn enter_handler(
    alloc: Global,
    labels: &LineLabels,
    search: &mut Search,
    raises: bool,
    tries: &[u32],
) -> Result<Vec<u32>, AllocError>
    requires { (l : ℕ) → line_of_label labels.now l < length (groups_of search.old) }
    ensures { IfOk result (λ numbers.
        Landed search.old search.new (landing_to labels.now raises tries.now) numbers.items) }
{
    if raises {
        enter_innermost(alloc, labels, search, tries)
    } else {
        Ok(Vec::new(alloc))
    }
}

/// The place of the graph that is the position at this line with these traps.
fn node_of_line(
    alloc: Global,
    labels: &LineLabels,
    search: &mut Search,
    line: &Line,
    place: u32,
    tries: &[u32],
) -> Result<Place, AllocError>
    requires labels { (l : ℕ) → line_of_label labels.now l < length (groups_of search.old) }
    requires next { suc place < length (groups_of search.old) }
    requires small { length (groups_of search.old) ≤ 4294967296 }
    requires args { HaveSmall line.now.args }
    requires results { HaveSmall line.now.results }
    ensures { IfOk result (λ node.
        IsNodeOfLine labels.now search.old search.new line.now place tries.now node) }
{
    let after = tries_after(alloc, &line.op, tries)?;
    let places = places_after(alloc, labels, &line.op, place)?;
    let next = search.enter_all(alloc, &places, after.as_slice())?;
    let raises = may_raise(&line.op);
    let aside = enter_handler(alloc, labels, search, raises, tries)?;
    let reads = reads_of(alloc, line.args.as_slice())?;
    let writes = writes_of(alloc, line)?;
    Ok(Place {
        next: List::from_vec(next),
        aside: List::from_vec(aside),
        reads,
        writes,
    })
}

/// The place of the graph that is the position. Where control goes from there has numbers too.
fn node_at(
    alloc: Global,
    lin: &Lin,
    labels: &LineLabels,
    search: &mut Search,
    position: &Position,
) -> Result<Place, AllocError>
    requires text { IsText lin.now labels.now }
    requires groups { length (groups_of search.old) ≡ suc (length lin.now.code) }
    ensures { IfOk result (λ node. (number : ℕ) →
        slice_get (all_positions search.old) number ≡ Some position.now →
        VisitedPosition lin.now search.old search.new number node) }
{
    match lin.code.get(position.place as usize) {
        None => Ok(Place {
            next: List::new(alloc),
            aside: List::new(alloc),
            reads: List::new(alloc),
            writes: List::new(alloc),
        }),
        Some(line) => {
            let tries = position.tries.as_slice();
            let node = node_of_line(alloc, labels, search, line, position.place, tries)?;
            Ok(node)
        }
    }
}

/// The same for the position with this number.
fn visit(
    alloc: Global,
    lin: &Lin,
    labels: &LineLabels,
    search: &mut Search,
    number: usize,
) -> Result<Place, AllocError>
    requires text { IsText lin.now labels.now }
    requires groups { length (groups_of search.old) ≡ suc (length lin.now.code) }
    requires number { number < length (all_positions search.old) }
    ensures { IfOk result (λ node. VisitedPosition lin.now search.old search.new number node) }
{
    let position = search.copy_at(number)?;
    let node = node_at(alloc, lin, labels, search, &position)?;
    Ok(node)
}

/// The places of the graph that are positions, and every position to which control goes from one.
///
/// Most functions have one position for each place. That one is left without a number is want of
/// memory.
pub fn spread(
    alloc: Global,
    lin: &Lin,
    labels: &LineLabels,
    search: &mut Search,
    nodes: &mut Vec<Place>,
) -> Result<(), AllocError>
    requires text { IsText lin.now labels.now }
    requires ready { IsSearchReady lin.now search.old nodes.old.items }
    ensures { IfOk result (λ _. SpreadToAll lin.now search.old search.new nodes.new.items) }
{
    for _visit in 0..u32::MAX {
        let number = nodes.len();
        if number == search.positions.len() {
            return Ok(());
        }
        let node = visit(alloc, lin, labels, search, number)?;
        nodes.push(node)?;
    }
    // As many were visited as positions can have numbers, so these are all.
    Ok(())
}
