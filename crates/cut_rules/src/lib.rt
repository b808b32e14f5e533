//! Mach functions whose straight runs are cut by labels to which nothing leads, so that each run
//! has few allocations; and what such a function keeps.
//!
//! Combined allocation makes the allocations of a straight run one, as long as their bytes fit, and
//! the results of all are live together then. A text that allocates many small blocks in a row
//! would have more of them than there are registers. A mark that is a label alone ends a run: it
//! does nothing, costs no unit, and has no words. (OCaml has no such marks.)
//!
//! The crate holds definitions and laws alone.
#![tactic(auto)]

ghost use Rattle.std.specs.Prelude.{◌≤◌, List};
ghost use Rattle.cut_rules.specs.Cut.{IsWithCuts, allocation_count, most_allocations, with_cuts};
ghost use Rattle.cut_rules.specs.Kept.{IsCutKept};
ghost use Rattle.mach_ir.specs.Formed.{WellFormed};
ghost use Rattle.mach_ir.specs.Placed.{IsStraightRun};
ghost use Rattle.mach_ir.specs.declared.mach.Instr.{Instr};
ghost use Rattle.mach_ir.specs.declared.mach.Mach.{Mach};

/// Law: a function with cuts, wherever in its straight runs, does what the function does, for as
/// many units, and no address is live where none was.
pub fn what_is_cut_is_kept()
    ensures { (m q : Mach) → WellFormed m → IsWithCuts m q → IsCutKept m q }
{}

/// Law: cut after every twelfth allocation, a function has cuts, and no straight run of it has more
/// than twelve allocations.
pub fn cuts_leave_few_allocations()
    ensures cut { (m : Mach) → IsWithCuts m (with_cuts m) }
    ensures few { (m : Mach) (run : List Instr) → IsStraightRun (with_cuts m) run →
        allocation_count run ≤ most_allocations }
{}
