//! Mach functions in which registers are stored in slots after writes and reloaded before reads, which
//! of them spilling stores and reloads, and what such a function keeps.
//!
//! A register keeps its value over calls, and so does its slot: a reload writes what the register holds
//! already. So a function that stores and reloads does what it did, whichever writes are stored, where a
//! register is reloaded only if each write of it that comes there was.
//!
//! Spilling reloads an open register where it is read after a call that it has lived over, and stores
//! the writes that come to such a read.
//!
//! The crate holds definitions and laws alone.
#![tactic(auto)]

ghost use Rattle.std.specs.Prelude.{◌≡◌};
ghost use Rattle.mach_ir.specs.Formed.{WellFormed};
ghost use Rattle.mach_ir.specs.Placed.{WellPlaced};
ghost use Rattle.mach_ir.specs.Seats.{Seated};
ghost use Rattle.mach_ir.specs.declared.mach.Mach.{Mach};
ghost use Rattle.spill_rules.specs.Chosen.{IsSpillChoice, IsSpilled, ParamsPlaced, IsChosenKept};
ghost use Rattle.spill_rules.specs.Spilled.{SpillPlan, IsSpillPlan, IsSpillKept, spilled};

/// Law: a function in which registers are stored and reloaded by a plan keeps.
pub fn spilling_changes_nothing()
    ensures { (m : Mach) (plan : SpillPlan) → WellFormed m → WellPlaced m → IsSpillPlan m plan →
        IsSpillKept m (spilled plan m) plan }
{}

/// Law: what spilling chooses is a plan.
pub fn a_chosen_plan_is_one()
    ensures { (m : Mach) (plan : SpillPlan) → WellFormed m → ParamsPlaced m → IsSpillChoice m plan →
        IsSpillPlan m plan }
{}

/// Law: what spilling makes of a function is kept, and gives slots only to what lives over calls.
pub fn what_is_spilled_is_kept()
    ensures { (m q : Mach) → WellFormed m → WellPlaced m → ParamsPlaced m → (s : IsSpilled m q) →
        IsChosenKept m q s.plan }
{}

/// Law: spilling makes one function of each.
pub fn spilling_makes_one()
    ensures { (m q k : Mach) → IsSpilled m q → IsSpilled m k → q ≡ k }
{}

/// Law: parameters that are as the conventions say have fixed places.
pub fn seated_parameters_are_placed()
    ensures { (m : Mach) → Seated m → ParamsPlaced m }
{}
