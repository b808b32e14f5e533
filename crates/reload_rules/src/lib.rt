//! Mach functions in which what is in slots is reloaded before it is read and spilled after it is
//! written, which of a function reloading makes by a colouring, and what such a function keeps.
//!
//! A fresh register holds what its register holds, and only round the instruction for which it is made.
//! So a function over fresh registers does what it did. It has no more slots than the colouring gives.
//!
//! The crate holds definitions and laws alone.
#![tactic(auto)]

ghost use Rattle.std.specs.Prelude.{◌≡◌, Bool};
ghost use Rattle.mach_ir.specs.Formed.{WellFormed};
ghost use Rattle.mach_ir.specs.Placed.{Colouring, IsProperColouring, WellPlaced};
ghost use Rattle.mach_ir.specs.Walks.{IsRegister, Joined};
ghost use Rattle.mach_ir.specs.declared.mach.Mach.{Mach};
ghost use Rattle.colouring_rules.specs.Places.{ColoursLow};
ghost use Rattle.reload_rules.specs.Kept.{IsReloadKept};
ghost use Rattle.reload_rules.specs.Reloaded.{IsReloadedBy};

/// Law: what reloading makes of a function by a colouring of it is kept.
pub fn what_is_reloaded_is_kept()
    ensures { (m q : Mach) (place : Colouring) (asks : Bool) → WellFormed m → WellPlaced m →
        ColoursLow m →
        IsProperColouring (IsRegister m) (Joined m) place → IsReloadedBy m place q asks →
        IsReloadKept m q asks }
{}

/// Law: reloading makes one function of each, and one answer.
pub fn reloading_makes_one()
    ensures { (m q k : Mach) (place : Colouring) (a b : Bool) → IsReloadedBy m place q a →
        IsReloadedBy m place k b → (q ≡ k) × (a ≡ b) }
{}
