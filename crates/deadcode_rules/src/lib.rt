//! Mach functions without the instructions that only compute, and whose results nothing uses; and what
//! such a function keeps.
//!
//! A register is used where some walk reads it before it writes it, where an instruction that may go
//! counts as a read only if its own result is used after it. So what computes only for what goes, goes
//! with it, round loops too; and in what is left a register is live exactly where it was used.
//!
//! The crate holds definitions and laws alone.
#![tactic(auto)]

ghost use Rattle.std.specs.Prelude.{◌≡◌};
ghost use Rattle.mach_ir.specs.Formed.{WellFormed};
ghost use Rattle.mach_ir.specs.Placed.{WellPlaced};
ghost use Rattle.mach_ir.specs.declared.mach.Mach.{Mach};
ghost use Rattle.deadcode_rules.specs.Dropped.{IsDropped, IsDropKept};

/// Law: a function without its dead instructions is kept.
pub fn what_is_dropped_is_kept()
    ensures { (m q : Mach) → WellFormed m → WellPlaced m → IsDropped m q → IsDropKept m q }
{}

/// Law: dropping makes one function of each.
pub fn dropping_makes_one()
    ensures { (m q k : Mach) → IsDropped m q → IsDropped m k → q ≡ k }
{}
