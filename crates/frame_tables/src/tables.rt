//! The descriptors of a function.
ghost use Rattle.std.specs.Prelude.{◌≡◌, length, IfOk};
ghost use Rattle.lin_ir.specs.Descriptors.{AreExact, FitsDescriptors, frame_point_count};
ghost use Rattle.lin_ir.specs.Formed.{AreLocated};
ghost use Rattle.lin_ir.specs.Walks.{OneDepth};
ghost use Rattle.lin_flow.specs.Nodes.{IsText};
ghost use Rattle.frame_tables.specs.Points.{IsSearchedForPoints};

use crate::after::{add_points, enter_points};
use crate::entries::describe_all;
use bs_words::List;
use dataflow::{Flow, Place, live_in_any_order};
use lin_flow::lines::REGISTERS;
use lin_flow::{LineLabels, Search, Walks, search_walks, spread};
use lin_ir::{Descr, Lin};
use mach_ir::Seq;
use std::alloc::{AllocError, Global};

/// The positions of a function with their places of the flow graph. Walks come to the first
/// `reached` of them.
#[derive(Drop)]
struct Searched {
    search: Search,
    nodes: Vec<Place>,
    reached: u32,
}

/// Searches what walks come to, and what comes after frame points to which none comes.
fn search_points(alloc: Global, lin: &Lin, labels: &LineLabels) -> Result<Searched, AllocError>
    requires { IsText lin.now labels.now }
    ensures { IfOk result (λ s. IsSearchedForPoints lin.now s.search s.reached s.nodes.items) }
{
    let Walks {
        mut search,
        mut nodes,
    } = search_walks(alloc, lin, labels)?;
    let reached = nodes.len() as u32;
    enter_points(alloc, lin, &mut search, reached)?;
    spread(alloc, lin, labels, &mut search, &mut nodes)?;
    Ok(Searched {
        search,
        nodes,
        reached,
    })
}

/// The descriptors of a function whose walks have been searched.
fn describe_searched(
    alloc: Global,
    lin: &Lin,
    search: &Search,
    mut nodes: Vec<Place>,
    reached: u32,
) -> Result<Seq<Descr>, AllocError>
    requires searched { IsSearchedForPoints lin.now search.now reached nodes.items }
    requires depth { OneDepth lin.now }
    requires within { FitsDescriptors lin.now }
    ensures exact { IfOk result (AreExact lin.now) }
    ensures count { IfOk result (λ ds. length ds ≡ frame_point_count lin.now.code) }
{
    let first = nodes.len();
    let points = add_points(alloc, lin, search, reached, &mut nodes)?;
    let flow = Flow {
        places: List::from_vec(nodes),
        bound: lin.slots + REGISTERS,
    };
    let live = live_in_any_order(alloc, &flow)?;
    let frame = lin.frame_bytes();
    let descrs = describe_all(alloc, frame, &points, first, &live)?;
    Ok(descrs)
}

/// The descriptors of the frame points that are no tail calls, in the order of the lines.
///
/// Each names exactly the locations that are live as val after its frame point: those that some walk
/// reads as val before it writes them, from the return address on, or from the entry of the handler
/// of the innermost trap, where a call or a frame call may raise to it. Where walks come to a frame
/// point with different traps, a walk from any of them counts.
///
/// Each location of the function has to be a colour, t0 or one of its slots; each place has to have
/// one number of pushed traps; and frames, traps and lines have to fit what descriptors can say. More
/// positions of walks than a number can count are want of memory.
pub fn descriptors(alloc: Global, lin: &Lin) -> Result<Seq<Descr>, AllocError>
    requires located { AreLocated lin.now }
    requires depth { OneDepth lin.now }
    requires within { FitsDescriptors lin.now }
    ensures exact { IfOk result (AreExact lin.now) }
    ensures count { IfOk result (λ ds. length ds ≡ frame_point_count lin.now.code) }
{
    let labels = LineLabels::of_function(alloc, lin)?;
    let Searched {
        search,
        nodes,
        reached,
    } = search_points(alloc, lin, &labels)?;
    let descrs = describe_searched(alloc, lin, &search, nodes, reached)?;
    Ok(descrs)
}
