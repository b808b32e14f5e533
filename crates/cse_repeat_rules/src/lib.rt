//! Mach functions in which an integer operator that repeats an earlier one of its straight run is a move
//! from that one's result, and what such a function keeps.
//!
//! Both functions run in step, over registers that hold the same: a result that nothing has ended since holds
//! what its operator would give now. More is live in the second only between an operator and its repeat,
//! where nothing else of its place is written, and no frame point loses it.
//!
//! The crate holds definitions and laws alone.
#![tactic(auto)]

ghost use Rattle.std.specs.Prelude.{◌≡◌};
ghost use Rattle.mach_ir.specs.Formed.{WellFormed};
ghost use Rattle.mach_ir.specs.Placed.{WellPlaced};
ghost use Rattle.mach_ir.specs.declared.mach.Mach.{Mach};
ghost use Rattle.cse_repeat_rules.specs.Kept.{OwnOrigins, IsRepeatKept};
ghost use Rattle.cse_repeat_rules.specs.Repeated.{IsRepeated, IsFormKept};

/// Law: a function whose repeats are moves keeps its form, and has no repeat left.
pub fn a_function_without_repeats_is_formed()
    ensures { (m q : Mach) → WellFormed m → IsRepeated m q → IsFormKept m q }
{}

/// Law: a function whose repeats are moves is kept, where no register is made from another.
pub fn what_is_repeated_is_kept()
    ensures { (m q : Mach) → WellFormed m → WellPlaced m → OwnOrigins m → IsRepeated m q →
        IsRepeatKept m q }
{}

/// Law: the repeats of a function are moves in one way.
pub fn repeats_are_one()
    ensures { (m q k : Mach) → IsRepeated m q → IsRepeated m k → q ≡ k }
{}
