//! The places of the flow graph before which is live what is live after a frame point.
//!
//! Each frame point has a second place in the graph, which reads nothing and has the edges of all its
//! positions: liveness before it is what the descriptor names.
ghost use Rattle.std.specs.Prelude.{◌≡◌, ◌<◌, ◌↔◌, ℕ, suc, Some, length, slice_get, Contains, IfOk, IsTrue};
ghost use Rattle.bs_words.specs.Contents.{contents};
ghost use Rattle.lin_ir.specs.Meaning.{passes_frame};
ghost use Rattle.lin_flow.specs.Search.{all_positions, groups_of, search_members};
ghost use Rattle.lin_flow.specs.Sizes.{IsCountable, HaveSmall};
ghost use Rattle.frame_tables.specs.Points.{IsAsked, IsChosenPosition, IsChoice, edges_of, IsGathered, Gathers, HasTraps};
ghost use Rattle.frame_tables.specs.Points.{IsAfterNode, IsSearchedForPoints, IsRooted, ArePoints, HasRoots};

use bs_words::List;
use dataflow::Place;
use lin_flow::Search;
use lin_flow::lines::writes_of;
use lin_flow::nodes::node_numbered;
use lin_ir::{Lin, LinOp, Line};
use lin_laws::Position;
use std::alloc::{AllocError, Global};

/// Which of the positions at a place are those of its frame point: where walks come there, the
/// first `reached` positions, and else the one with no trap pushed.
#[derive(Clone, Copy)]
pub struct Choice {
    place: u32,
    reached: u32,
    seen: bool,
}

/// A frame point that is no tail call.
#[derive(Clone, Copy)]
pub struct Point {
    /// The number of lines before it.
    pub place: u32,

    /// How many traps are pushed there.
    pub traps: usize,
}

/// The choice at a place.
fn choice_at(search: &Search, place: u32, reached: u32) -> Choice
    ensures { IsChoice search.now place reached result }
{
    Choice {
        place,
        reached,
        seen: search.has_first(place, reached),
    }
}

fn is_asked(found: &Position, number: u32, choice: Choice) -> bool
    ensures { IsTrue result ↔ IsAsked choice number found.now }
{
    if found.place != choice.place {
        return false;
    }
    if choice.seen {
        number < choice.reached
    } else {
        found.tries.is_empty()
    }
}

fn is_chosen(search: &Search, number: u32, choice: Choice) -> bool
    ensures { IsTrue result ↔ IsChosenPosition search.now choice number }
{
    match search.position_at(number) {
        None => false,
        Some(found) => is_asked(found, number, choice),
    }
}

fn edges(node: &Place, aside: bool) -> &[u32]
    ensures { result.now ≡ edges_of aside node.now }
{
    if aside {
        node.aside.as_slice()
    } else {
        node.next.as_slice()
    }
}

/// Adds where control goes from the position with this number, if it is chosen.
fn gather_from(
    numbers: &mut Vec<u32>,
    search: &Search,
    nodes: &[Place],
    choice: Choice,
    aside: bool,
    number: u32,
) -> Result<(), AllocError>
    ensures { IfOk result (λ _.
        Gathers search.now nodes.now choice aside number numbers.old.items numbers.new.items) }
{
    if is_chosen(search, number, choice) {
        match node_numbered(nodes, number) {
            None => {}
            Some(node) => {
                numbers.extend_from_slice(edges(node, aside))?;
            }
        }
    }
    Ok(())
}

/// Where control goes from the positions that are chosen.
fn gather(
    alloc: Global,
    search: &Search,
    nodes: &[Place],
    choice: Choice,
    aside: bool,
) -> Result<List<u32>, AllocError>
    ensures { IfOk result (λ ns. IsGathered search.now nodes.now choice aside
        (search_members (groups_of search.now) choice.place) (contents ns)) }
{
    let mut numbers = Vec::new(alloc);
    for number in search.members(choice.place) {
        gather_from(&mut numbers, search, nodes, choice, aside, *number)?;
    }
    Ok(List::from_vec(numbers))
}

/// How many traps are pushed at the position with the number.
fn traps_of(search: &Search, number: u32) -> usize
    ensures { (x : Position) → slice_get (all_positions search.now) number ≡ Some x →
        result ≡ length x.tries }
{
    match search.position_at(number) {
        None => 0,
        Some(found) => found.tries.len(),
    }
}

/// How many traps are pushed at a position that is chosen.
fn traps_at(search: &Search, choice: Choice) -> usize
    ensures { (n : ℕ) → Contains (search_members (groups_of search.now) choice.place) n →
        IsChosenPosition search.now choice n → HasTraps search.now choice result }
{
    for number in search.members(choice.place) {
        if is_chosen(search, *number, choice) {
            return traps_of(search, *number);
        }
    }
    0
}

/// The place of the graph before which is live what is live after the line.
fn after_node(
    alloc: Global,
    search: &Search,
    nodes: &[Place],
    choice: Choice,
    line: &Line,
) -> Result<Place, AllocError>
    requires { HaveSmall line.now.results }
    ensures { IfOk result (λ node. IsAfterNode search.now nodes.now choice line.now node) }
{
    let next = gather(alloc, search, nodes, choice, false)?;
    let aside = gather(alloc, search, nodes, choice, true)?;
    let writes = writes_of(alloc, line)?;
    Ok(Place {
        next,
        aside,
        reads: List::new(alloc),
        writes,
    })
}

/// Gives the place a position with no trap pushed, if it is that of a frame point to which no walk
/// comes.
fn enter_point(
    alloc: Global,
    search: &mut Search,
    op: &LinOp,
    place: u32,
    reached: u32,
) -> Result<(), AllocError>
    requires { place < length (groups_of search.old) }
    ensures { IfOk result (λ _. IsRooted search.old search.new op.now place reached) }
{
    if !op.passes_frame() {
        return Ok(());
    }
    if search.has_first(place, reached) {
        return Ok(());
    }
    let _number = search.enter(alloc, place, &[])?;
    Ok(())
}

/// Gives each frame point to which no walk comes a position, that with no trap pushed. The error is want
/// of memory; more positions than 32 bits count are answered so too.
pub fn enter_points(
    alloc: Global,
    lin: &Lin,
    search: &mut Search,
    reached: u32,
) -> Result<(), AllocError>
    requires lines { length lin.now.code < 4294967296 }
    requires groups { length (groups_of search.old) ≡ suc (length lin.now.code) }
    ensures { IfOk result (λ _.
        HasRoots lin.now search.old search.new reached (length lin.now.code)) }
{
    let code = lin.code.as_slice();
    for place in 0..code.len() as u32 {
        enter_point(alloc, search, &code[place as usize].op, place, reached)?;
    }
    Ok(())
}

/// The frame points by their lines. Each has a place of the graph, in their order, which comes
/// after those of positions. The only error is want of memory.
pub fn add_points(
    alloc: Global,
    lin: &Lin,
    search: &Search,
    reached: u32,
    nodes: &mut Vec<Place>,
) -> Result<Vec<Point>, AllocError>
    requires countable { IsCountable lin.now }
    requires searched { IsSearchedForPoints lin.now search.now reached nodes.old.items }
    ensures { IfOk result (λ points. ArePoints lin.now (all_positions search.now) nodes.new.items
        points.items (length lin.now.code)) }
{
    let mut points = Vec::new(alloc);
    let code = lin.code.as_slice();
    for place in 0..code.len() as u32 {
        let line = &code[place as usize];
        if line.op.passes_frame() {
            let choice = choice_at(search, place, reached);
            let traps = traps_at(search, choice);
            let node = after_node(alloc, search, nodes, choice, line)?;
            nodes.push(node)?;
            points.push(Point { place, traps })?;
        }
    }
    Ok(points)
}
