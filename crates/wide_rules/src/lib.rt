//! Mach functions with an instruction that writes more registers than there are colours, all of
//! which are read soon: each round of allocation asks for another, whatever chooses places (the
//! last resort after fifty rounds of OCaml's `asmcomp/asmgen.ml`).
//!
//! The results of such an instruction are live together, so some have no colour. They are put into
//! slots, with a fresh register for each, and these are as many results of the same instruction. So
//! it can be read off a text that allocation ends by its last resort.
//!
//! The crate holds definitions and laws alone.
#![tactic(auto)]

ghost use Rattle.std.specs.Prelude.{◌≡◌, ℕ, Bool, true};
ghost use Rattle.choices.specs.declared.choices.Alloc.{Alloc};
ghost use Rattle.colouring_rules.specs.Places.{ColoursLow, rest_in_slots};
ghost use Rattle.mach_ir.specs.Formed.{WellFormed};
ghost use Rattle.mach_ir.specs.Placed.{WellPlaced};
ghost use Rattle.mach_ir.specs.declared.mach.Mach.{Mach};
ghost use Rattle.reg_rounds_rules.specs.Rounds.{RoundsAsked, IsRound, most_rounds, IsAllocatedIn};
ghost use Rattle.wide_rules.specs.Wide.{HasWideInstr, AllHaveRounds};

/// Law: a round of such a function asks for another, and what it makes is such a function again.
pub fn wide_functions_ask()
    ensures asks { (alloc : Alloc) (fresh rounds : ℕ) (first m q : Mach) (asks : Bool) →
        WellFormed first → WellPlaced first → ColoursLow first → HasWideInstr first →
        RoundsAsked alloc fresh first rounds m → IsRound alloc fresh m q asks → asks ≡ true }
    ensures wide { (alloc : Alloc) (fresh rounds : ℕ) (first m : Mach) → WellFormed first →
        WellPlaced first → ColoursLow first → HasWideInstr first →
        RoundsAsked alloc fresh first rounds m → HasWideInstr m }
{}

/// Law: allocation of such a function is the last resort and nothing else; and it is that where
/// each function has a round.
pub fn wide_functions_rest()
    ensures only { (alloc : Alloc) (m q : Mach) (rounds : ℕ) (rest : Bool) → WellFormed m →
        WellPlaced m → ColoursLow m → HasWideInstr m → IsAllocatedIn alloc m q rounds rest →
        (q ≡ rest_in_slots m) × (rounds ≡ most_rounds) × (rest ≡ true) }
    ensures known { (alloc : Alloc) (m : Mach) → WellFormed m → WellPlaced m → ColoursLow m →
        HasWideInstr m → AllHaveRounds alloc →
        IsAllocatedIn alloc m (rest_in_slots m) most_rounds true }
{}
