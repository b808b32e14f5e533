//! Mach functions in which registers are moved to themselves before calls that they live over, which of
//! them are, and what such a function keeps.
//!
//! A move of a register to itself changes nothing, but it writes the register anew, and what a call finds
//! written is what spilling stores for it. So a register is moved to itself at the start of the straight
//! run to the one call that finds it written since the last; spilling then stores it there alone. Each
//! register has one such move at the most. A loop before that call then stores the register in no turn,
//! and a function that returns before it does not store the register.
//!
//! The crate holds definitions and laws alone.
#![tactic(auto)]

ghost use Rattle.std.specs.Prelude.{◌≡◌};
ghost use Rattle.mach_ir.specs.Formed.{WellFormed};
ghost use Rattle.mach_ir.specs.Walks.{NoAddrLive};
ghost use Rattle.mach_ir.specs.declared.mach.Mach.{Mach};
ghost use Rattle.sink_rules.specs.Chosen.{IsSinkChoice, IsSunk};
ghost use Rattle.sink_rules.specs.Sunk.{SinkPlan, IsSinkPlan, IsSinkKept, sunk};

/// Law: a function in which registers are moved to themselves by a plan is kept.
pub fn moves_to_themselves_change_nothing()
    ensures { (m : Mach) (plan : SinkPlan) → WellFormed m → IsSinkPlan m plan →
        IsSinkKept m (sunk plan m) plan }
{}

/// Law: what is chosen is a plan, where no addr lives over a frame point.
pub fn a_chosen_plan_is_one()
    ensures { (m : Mach) (plan : SinkPlan) → WellFormed m → NoAddrLive m → IsSinkChoice m plan →
        IsSinkPlan m plan }
{}

/// Law: what is made of such a function so is kept.
pub fn what_is_sunk_is_kept()
    ensures { (m q : Mach) → WellFormed m → NoAddrLive m → (s : IsSunk m q) → IsSinkKept m q s.plan }
{}

/// Law: one function is made of each.
pub fn sinking_makes_one()
    ensures { (m q k : Mach) → IsSunk m q → IsSunk m k → q ≡ k }
{}
