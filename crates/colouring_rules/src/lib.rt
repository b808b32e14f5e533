//! Mach functions whose registers are put at places, and what such a function keeps.
//!
//! What a function does is by the numbers and components of its registers. Places say only which of
//! them an operation destroys: those at colours, but where a result is. So where open registers get
//! places, fixed ones stay, and joined ones are apart, an operation destroys at most what it did, and
//! what more it keeps is not live: the function does what it did, step for step. A colouring is
//! one such placing, and the last resort, each open register in the slot of its origin, is another.
//!
//! The crate holds definitions and laws alone.
#![tactic(auto)]

ghost use Rattle.mach_ir.specs.Formed.{WellFormed};
ghost use Rattle.mach_ir.specs.Placed.{WellPlaced, Colouring, IsProperColouring};
ghost use Rattle.mach_ir.specs.Walks.{IsRegister, Joined};
ghost use Rattle.mach_ir.specs.declared.mach.Mach.{Mach};
ghost use Rattle.colouring_rules.specs.Places.{ColoursLow, with_colouring, rest_in_slots};
ghost use Rattle.colouring_rules.specs.Rest.{IsRestKept};

/// Law: a function whose open registers go to the slots of their origins is kept.
pub fn the_rest_is_kept()
    ensures { (m : Mach) → WellFormed m → WellPlaced m → IsRestKept m (rest_in_slots m) }
{}

/// Law: so is one whose registers are where a colouring has them.
pub fn a_colouring_is_kept()
    ensures { (m : Mach) (place : Colouring) → WellFormed m → WellPlaced m → ColoursLow m →
        IsProperColouring (IsRegister m) (Joined m) place → IsRestKept m (with_colouring place m) }
{}
