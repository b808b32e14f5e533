//! Register allocation in rounds: each chooses places and reloads what it puts into slots, until one asks
//! for no other. After fifty the function as it was before the first is taken, with a slot for each
//! register whose place is open (OCaml's `asmcomp/asmgen.ml`).
//!
//! The crate holds definitions and laws alone.
#![tactic(auto)]

ghost use Rattle.std.specs.Prelude.{◌≡◌, ℕ, ◌*◌, ◌<◌};
ghost use Rattle.choices.specs.declared.choices.Alloc.{Alloc};
ghost use Rattle.mach_ir.specs.Formed.{WellFormed};
ghost use Rattle.mach_ir.specs.Placed.{WellPlaced};
ghost use Rattle.mach_ir.specs.Sizes.{Size, HasSize, HasRoom};
ghost use Rattle.mach_ir.specs.declared.mach.Mach.{Mach};
ghost use Rattle.reload_rules.specs.Known.{other_operands};
ghost use Rattle.colouring_rules.specs.Places.{ColoursLow};
ghost use Rattle.reload_rules.specs.Kept.{with_copies};
ghost use Rattle.reg_rounds_rules.specs.Rounds.{RoundsAsked, most_rounds, allocated_size, IsRegisterAllocated, IsAllocationKept};

/// Law: whatever chooses, an allocated function does what it did, each of its registers has a place, and few
/// words are new.
pub fn allocations_are_kept()
    ensures { (alloc : Alloc) (m q : Mach) → WellFormed m → WellPlaced m → ColoursLow m →
        IsRegisterAllocated alloc m q → IsAllocationKept m q }
{}

/// Law: by one choice allocation makes one function of each.
pub fn allocations_are_one()
    ensures { (alloc : Alloc) (m q k : Mach) → IsRegisterAllocated alloc m q → IsRegisterAllocated alloc m k →
        q ≡ k }
{}

/// Law: after rounds that each asked for another, a function has for each round at most one copy and one
/// register more for each operand and result that the first has in another instruction than a copy. So there
/// is room for the next round where there is for all.
pub fn rounds_have_room()
    ensures size { (alloc : Alloc) (fresh rounds : ℕ) (first m : Mach) → WellFormed first →
        WellPlaced first → ColoursLow first → RoundsAsked alloc fresh first rounds m → (s : Size) →
        HasSize first s → HasSize m (with_copies (rounds * other_operands first.code) s) }
    ensures room { (alloc : Alloc) (fresh rounds : ℕ) (first m : Mach) → WellFormed first →
        WellPlaced first → ColoursLow first → RoundsAsked alloc fresh first rounds m →
        rounds < most_rounds → HasRoom allocated_size first →
        HasRoom (with_copies (other_operands m.code)) m }
{}
