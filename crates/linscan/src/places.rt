//! Places by the numbers of registers.
ghost use Rattle.std.specs.Prelude.{◌≡◌, ◌<◌, ℕ, All, length, IfOk};
ghost use Rattle.mach_ir.specs.Graph.{IsOrdered};
ghost use Rattle.mach_ir.specs.declared.graph.Node.{Node};
ghost use Rattle.colouring.specs.Chosen.{colouring_with, fixed};
ghost use Rattle.colouring.specs.Tables.{places_by};

use bs_words::Loc;
use mach_ir::Graph;
use std::alloc::{AllocError, Global};

/// The places of a graph that are fixed, by the numbers of their registers; any other is `Unset`.
/// The time is that of the nodes and of the greatest number. The only error is want of memory.
pub fn fixed_places(alloc: Global, graph: &Graph) -> Result<Vec<Loc>, AllocError>
    requires { IsOrdered graph.now }
    ensures places { IfOk result (λ places. (n : ℕ) →
        places_by places.items n ≡ fixed graph.now n) }
    ensures has { IfOk result (λ places.
        All (λ (x : Node). x.reg.number < length places.items) graph.now.nodes) }
{
    let mut places = Vec::new(alloc);
    for node in graph.nodes.as_slice() {
        places.resize(node.reg.number as usize, Loc::Unset)?;
        places.push(node.reg.loc)?;
    }
    Ok(places)
}

/// The same places. The only error is want of memory.
pub fn copy_places(alloc: Global, places: &[Loc]) -> Result<Vec<Loc>, AllocError>
    ensures { IfOk result (λ copy. copy.items ≡ places.now) }
{
    let mut copy = Vec::new(alloc);
    copy.extend_from_slice(places)?;
    Ok(copy)
}

/// The place of a register by its number, and `Unset` where the table has none.
pub fn place_at(places: &[Loc], number: u32) -> Loc
    ensures { result ≡ places_by places.now number }
{
    match places.get(number as usize) {
        Some(place) => *place,
        None => Loc::Unset,
    }
}

/// Puts a register at a place.
pub fn put(places: &mut Vec<Loc>, number: u32, place: Loc)
    requires { number < length places.old.items }
    ensures len { length places.new.items ≡ length places.old.items }
    ensures places { (n : ℕ) → places_by places.new.items n
        ≡ colouring_with (places_by places.old.items) number place n }
{
    places[number as usize] = place;
}
