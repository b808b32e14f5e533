//! Mach functions in which operands are read from the registers that they are copies of, and what such a
//! function keeps.
//!
//! Where a move's target is read later in its straight run, and neither register has been written since,
//! its source is read instead: copy propagation, within straight runs, between registers without places
//! that hold values of one kind, and of an addr over no allocation. Both functions run in step, over the
//! same registers. More is live in the second only between a move and a read of its target, where its
//! source is not written, and no frame point loses it.
//!
//! The crate holds definitions and laws alone.
#![tactic(auto)]

ghost use Rattle.std.specs.Prelude.{◌≡◌};
ghost use Rattle.mach_ir.specs.Formed.{WellFormed};
ghost use Rattle.mach_ir.specs.Placed.{WellPlaced};
ghost use Rattle.mach_ir.specs.declared.mach.Mach.{Mach};
ghost use Rattle.cse_repeat_rules.specs.Kept.{OwnOrigins};
ghost use Rattle.cse_copy_rules.specs.Kept.{IsCopyKept};
ghost use Rattle.cse_copy_rules.specs.Propagated.{IsPropagated};

/// Law: a function whose copies are propagated is kept, where no register is made from another.
pub fn what_is_propagated_is_kept()
    ensures { (m q : Mach) → WellFormed m → WellPlaced m → OwnOrigins m → IsPropagated m q →
        IsCopyKept m q }
{}

/// Law: the copies of a function are propagated in one way.
pub fn propagations_are_one()
    ensures { (m q k : Mach) → IsPropagated m q → IsPropagated m k → q ≡ k }
{}
