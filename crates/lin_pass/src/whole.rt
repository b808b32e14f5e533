//! The Linear function of a Mach function.
//!
//! `linear` takes a function at its places, and nothing of the rounds that gave them.
ghost use Rattle.std.specs.Prelude.{IfOk};
ghost use Rattle.mach_ir.specs.Formed.{WellFormed};
ghost use Rattle.mach_ir.specs.Placed.{FullyPlaced};
ghost use Rattle.mach_ir.specs.Seats.{Seated};
ghost use Rattle.linearise_rules.specs.Sizes.{HasLineRoom};
ghost use Rattle.lin_pass.specs.Linear.{IsLinearOf};

use lin_ir::Lin;
use lin_tidy::tidy;
use linearise::lower;
use mach_ir::Mach;
use std::alloc::{AllocError, Global};

/// The Linear function of a Mach function all of whose registers have places: its operations over
/// places, structures as labels, jumps and branches, tries as traps (OCaml's
/// `asmcomp/linearize.ml`); then loops are turned round, their tests again at their ends, and what
/// has no use is left out.
///
/// The only error is want of memory, which more positions of walks than a number can count are too.
pub fn linear(alloc: Global, mach: &Mach) -> Result<Lin, AllocError>
    requires well_formed { WellFormed mach.now }
    requires placed { FullyPlaced mach.now }
    requires seated { Seated mach.now }
    requires room { HasLineRoom mach.now }
    ensures { IfOk result (IsLinearOf mach.now) }
{
    let lowered = lower(alloc, mach)?;
    tidy(alloc, lowered)
}
