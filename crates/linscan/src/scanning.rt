//! The places of all registers, one after the other.
ghost use Rattle.std.specs.Prelude.{◌≡◌, ◌<◌, ℕ, length, IfOk};
ghost use Rattle.mach_ir.specs.Graph.{IsColourable, InGraph, JoinedIn, coloured_location};
ghost use Rattle.mach_ir.specs.Placed.{IsProperColouring};
ghost use Rattle.colouring.specs.Tables.{places_by};
ghost use Rattle.linscan_rules.specs.Contract.{NoNeedlessSlotByIntervals};
ghost use Rattle.linscan_rules.specs.Table.{IntervalIn, IsScannable, IsScannedBy};
ghost use Rattle.linscan.specs.Held.{holder_in, places_left, holder_left, IsGiverBelow};

use crate::active::Active;
use crate::choice::{Choice, choose};
use crate::closed::Closed;
use crate::order::{OpenRegister, scan_order};
use crate::places::{copy_places, fixed_places, put};
use bs_words::Loc;
use linscan_rules::Intervals;
use mach_ir::{Colours, Graph, Seq};
use std::alloc::{AllocError, Global};

/// The places so far, and who holds each colour.
#[derive(Drop)]
pub struct Allotted {
    /// By the number of the register.
    pub places: Vec<Loc>,
    /// Who holds each colour.
    pub active: Active,
}

impl Allotted {
    /// Puts the next register where it was chosen to be.
    fn settle(&mut self, register: OpenRegister, choice: Choice)
        requires number { register.number < length self.old.places.items }
        requires giver { IsGiverBelow (length self.old.places.items) choice }
        ensures len { length self.new.places.items ≡ length self.old.places.items }
        ensures places { (n : ℕ) → places_by self.new.places.items n
            ≡ places_left (places_by self.old.places.items) register choice n }
        ensures active { (c : ℕ) → c < 32 → holder_in self.new.active c
            ≡ holder_left (holder_in self.old.active) register choice c }
    {
        match choice {
            Choice::Free(colour) => {
                put(&mut self.places, register.number, Loc::Machine(colour));
                self.active.hold(colour, register);
            }
            Choice::Taken(holder) => {
                let origin = holder.register.origin;
                put(&mut self.places, holder.register.number, Loc::Slot(origin));
                put(
                    &mut self.places,
                    register.number,
                    Loc::Machine(holder.colour),
                );
                self.active.hold(holder.colour, register);
            }
            Choice::Slot => put(
                &mut self.places,
                register.number,
                Loc::Slot(register.origin),
            ),
        }
    }
}

/// A place for each register of a graph, by intervals. Places that are fixed stay, and joined registers
/// are apart. A register goes to a slot only where at each colour stands one whose interval overlaps its
/// own: of those that could have the last colour, the one that ends last goes.
///
/// The time is that of sorting the nodes and of each node's neighbours. The only error is want of memory.
pub fn scan(alloc: Global, graph: &Graph, intervals: &Intervals) -> Result<Colours, AllocError>
    requires colourable { IsColourable graph.now }
    requires scannable { IsScannable graph.now intervals.now }
    ensures safe { IfOk result (λ colours. IsProperColouring (InGraph graph.now)
        (JoinedIn graph.now) (coloured_location colours)) }
    ensures full { IfOk result (λ colours. NoNeedlessSlotByIntervals (InGraph graph.now)
        (IntervalIn intervals.now) (coloured_location colours)) }
    ensures value { IfOk result (IsScannedBy graph.now intervals.now) }
{
    let fixed = fixed_places(alloc, graph)?;
    let order = scan_order(alloc, graph, intervals)?;
    let places = copy_places(alloc, fixed.as_slice())?;
    let active = Active::new();
    let mut allotted = Allotted { places, active };
    for next in &order {
        let neighbours = next.node.neighbours.as_slice();
        let closed = Closed::by(fixed.as_slice(), neighbours);
        let choice = choose(&allotted.active, &closed, next.register);
        allotted.settle(next.register, choice);
    }
    Ok(Colours {
        places: Seq::from_vec(allotted.places),
    })
}
