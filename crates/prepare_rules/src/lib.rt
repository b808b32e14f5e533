//! The passes over Mach between selection and register allocation, in their order (OCaml's
//! `asmcomp/asmgen.ml`, with two more right before spilling), and what they carry from pass to pass.
//!
//! The crate holds definitions and laws alone.
#![tactic(auto)]

ghost use Rattle.std.specs.Prelude.{◌≡◌};
ghost use Rattle.mach_ir.specs.declared.mach.Mach.{Mach};
ghost use Rattle.prepare_rules.specs.Prepared.{IsPreparable, IsPreparedMach, IsPreparedKept};

/// Law: what the passes make of a function is kept.
pub fn what_is_prepared_is_kept()
    ensures { (m q : Mach) → IsPreparable m → IsPreparedMach m q → IsPreparedKept m q }
{}

/// Law: the passes make one function of each.
pub fn preparing_makes_one()
    ensures { (m q k : Mach) → IsPreparedMach m q → IsPreparedMach m k → q ≡ k }
{}
