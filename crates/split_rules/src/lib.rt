//! Mach functions whose open registers have other numbers, web by web, and what such a function keeps.
//!
//! Two writes of a register are joined where both come to a place at which it is live. Splitting gives
//! writes one number exactly where a chain of joined ones connects them, and a read the number of the
//! writes that come to it. What the register held, the register of that number then holds: the function
//! does what it did, step for step.
//!
//! The web of a register's first write keeps the register's number, and each other web has one by its own
//! first write, so that a function splits in one way.
//!
//! The crate holds definitions and laws alone.
#![tactic(auto)]

mod writes;

ghost use Rattle.std.specs.Prelude.{◌≡◌};
ghost use Rattle.mach_ir.specs.Formed.{WellFormed};
ghost use Rattle.mach_ir.specs.Placed.{WellPlaced};
ghost use Rattle.mach_ir.specs.declared.mach.Mach.{Mach};
ghost use Rattle.split_rules.specs.Split.{IsSplit, IsSplitKept, IsOneWeb};

pub use writes::Write;

/// Law: a split function is kept.
pub fn a_split_is_kept()
    ensures { (m q : Mach) → WellFormed m → WellPlaced m → IsSplit m q → IsSplitKept m q }
{}

/// Law: in a split function all writes of an open register are joined.
pub fn a_number_is_a_web()
    ensures { (m q : Mach) → WellPlaced m → IsSplit m q → IsOneWeb q }
{}

/// Law: a function splits in one way.
pub fn splits_are_one()
    ensures { (m q k : Mach) → IsSplit m q → IsSplit m k → q ≡ k }
{}
