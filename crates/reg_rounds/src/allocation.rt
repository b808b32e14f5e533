//! Register allocation, whole.
ghost use Rattle.std.specs.Prelude.{IfOk};
ghost use Rattle.choices.specs.declared.choices.Alloc.TheVariants.{Colour, Linear};
ghost use Rattle.mach_ir.specs.Formed.{WellFormed};
ghost use Rattle.mach_ir.specs.Placed.{WellPlaced};
ghost use Rattle.mach_ir.specs.Sizes.{HasRoom};
ghost use Rattle.pass_rules.specs.Measures.{other_operands};
ghost use Rattle.colouring_rules.specs.Places.{ColoursLow};
ghost use Rattle.reload_rules.specs.Kept.{with_copies};
ghost use Rattle.reg_rounds_rules.specs.Rounds.{IsRound, IsAllocatedIn, allocated_size};

use crate::choosing::chosen_places;
use crate::copies::copy;
use crate::slots::rest_in_slots;
use choices::Alloc;
use interfere::graph;
use liveness::{LiveFlow, first_free, live_flow};
use mach_ir::Mach;
use reload::reload;
use std::alloc::{AllocError, Global};

/// After how many rounds allocation gives up.
const MOST_ROUNDS: u32 = 50;

/// A Mach function all of whose registers have places.
#[derive(Clone, Drop)]
pub struct Allocated {
    /// The function.
    pub mach: Mach,
    /// How many rounds there were.
    pub rounds: u32,
    /// Whether it gave up: the function as it was before the first round then has a slot for each register
    /// whose place is open.
    pub rest: bool,
}

/// One round: what is live, the graph of what must be apart, places by the choice, and the copies for what
/// that put into slots. The answer says whether another round is asked for. Registers numbered `fresh` or
/// above were made by earlier rounds.
fn round(alloc: Global, mach: Mach, by: Alloc, fresh: u32) -> Result<(Mach, bool), AllocError>
    requires formed { WellFormed mach }
    requires placed { WellPlaced mach }
    requires room { HasRoom (with_copies (other_operands mach.code)) mach }
    ensures { IfOk result (λ made. IsRound by fresh mach made.0 made.1) }
{
    let LiveFlow { flow, live } = live_flow(alloc, &mach)?;
    let graph = graph(alloc, &mach, &live, &flow)?;
    let colours = chosen_places(alloc, &mach, &live, &flow, &graph, by, fresh)?;
    reload(alloc, mach, &colours)
}

/// A place for each register of a function by the choice, in how many rounds, and whether it gave up.
///
/// The time is that of the rounds, each of them that of liveness, of the graph and of choosing places by it.
/// The only error is want of memory.
pub fn allocate_by(alloc: Global, mach: Mach, by: Alloc) -> Result<Allocated, AllocError>
    requires formed { WellFormed mach }
    requires placed { WellPlaced mach }
    requires low { ColoursLow mach }
    requires room { HasRoom allocated_size mach }
    ensures { IfOk result (λ made. IsAllocatedIn by mach made.mach made.rounds made.rest) }
{
    let fresh = first_free(&mach);
    let first = copy(alloc, &mach)?;
    let mut current = mach;
    for rounds in 0..MOST_ROUNDS {
        let (made, asks) = round(alloc, current, by, fresh)?;
        if !asks {
            return Ok(Allocated {
                mach: made,
                rounds: rounds + 1,
                rest: false,
            });
        }
        current = made;
    }
    Ok(Allocated {
        mach: rest_in_slots(alloc, first)?,
        rounds: MOST_ROUNDS,
        rest: true,
    })
}

/// `allocate_by`, by colouring.
pub fn allocate(alloc: Global, mach: Mach) -> Result<Allocated, AllocError>
    requires formed { WellFormed mach }
    requires placed { WellPlaced mach }
    requires low { ColoursLow mach }
    requires room { HasRoom allocated_size mach }
    ensures { IfOk result (λ made. IsAllocatedIn Colour mach made.mach made.rounds made.rest) }
{
    allocate_by(alloc, mach, Alloc::Colour)
}

/// `allocate_by`, by linear scan.
pub fn allocate_linear(alloc: Global, mach: Mach) -> Result<Allocated, AllocError>
    requires formed { WellFormed mach }
    requires placed { WellPlaced mach }
    requires low { ColoursLow mach }
    requires room { HasRoom allocated_size mach }
    ensures { IfOk result (λ made. IsAllocatedIn Linear mach made.mach made.rounds made.rest) }
{
    allocate_by(alloc, mach, Alloc::Linear)
}
