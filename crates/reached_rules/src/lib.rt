//! Mach functions without the code that no walk reaches, and what such a function keeps. (OCaml
//! drops code after a jump as it linearises, `asmcomp/linearize.ml`.)
//!
//! Selection makes code that no walk reaches: what stands behind a raise, the handler of a body
//! that does not raise, a case that no index leads to. What stays is what some walk reaches; the
//! place of each label to which something leads that stays; and the marks of each `try` and `catch`
//! that stays, since it is by these marks that a text tells which tries are round a place.
//!
//! The crate holds definitions and laws alone.
#![tactic(auto)]

ghost use Rattle.std.specs.Prelude.{◌≡◌};
ghost use Rattle.mach_ir.specs.Formed.{WellFormed};
ghost use Rattle.mach_ir.specs.declared.mach.Mach.{Mach};
ghost use Rattle.reached_rules.specs.Kept.{IsTrimKept};
ghost use Rattle.reached_rules.specs.Trimmed.{IsTrimmed};

/// Law: what stays of a well-formed function does what the function did, no address is live where
/// none was, and some walk reaches each operation of it.
pub fn what_is_trimmed_is_kept()
    ensures { (m q : Mach) → WellFormed m → IsTrimmed m q → IsTrimKept m q }
{}

/// Law: what stays of a function is one.
pub fn trimming_makes_one()
    ensures { (m q k : Mach) → IsTrimmed m q → IsTrimmed m k → q ≡ k }
{}
