//! Mach functions in which constants of loops are made once, at the entry of the function; and what such
//! a function keeps.
//!
//! A constant may move whose register is of ints or odd vals, open, and its own: nothing else writes it,
//! and no other register has its origin. Those move that do not fit twelve bits and that are in a
//! loop, where each loop round them ends before the first call or entry of a handler of the text. A
//! register is live at more places then, and so may meet more registers; nothing else changes.
//!
//! The crate holds definitions and laws alone.
#![tactic(auto)]

ghost use Rattle.std.specs.Prelude.{◌≡◌};
ghost use Rattle.mach_ir.specs.Formed.{WellFormed};
ghost use Rattle.mach_ir.specs.declared.mach.Mach.{Mach};
ghost use Rattle.hoist_rules.specs.Chosen.{HasConstantsFirst};
ghost use Rattle.hoist_rules.specs.Hoisted.{IsHoisted, IsHoistKept};

/// Law: a function is kept in which constants that may move, whichever of them, are made at the entry.
pub fn what_is_hoisted_is_kept()
    ensures { (m q : Mach) → WellFormed m → IsHoisted m q → IsHoistKept m q }
{}

/// Law: so is a function with the constants of its loops first.
pub fn what_has_constants_first_is_kept()
    ensures { (m q : Mach) → WellFormed m → HasConstantsFirst m q → IsHoistKept m q }
{}

/// Law: there is one function with the constants of its loops first.
pub fn constants_first_are_one()
    ensures { (m q k : Mach) → HasConstantsFirst m q → HasConstantsFirst m k → q ≡ k }
{}
