//! Mach functions in which allocations are combined, and what such a function keeps (OCaml's
//! `asmcomp/comballoc.ml`).
//!
//! The allocations of a straight run become one, at the place of the first, as long as their bytes do
//! not pass the most of one reservation. No register that a later one writes is read or written before
//! it in the run, and no block that it makes can be named before it. So an earlier allocation may make
//! them.
//!
//! The crate holds definitions and laws alone.
#![tactic(auto)]

ghost use Rattle.std.specs.Prelude.{◌<◌, ◌≤◌, ◌+◌, ◌⊎◌, List, Contains};
ghost use Rattle.comballoc_rules.specs.Combined.{combined};
ghost use Rattle.comballoc_rules.specs.Neighbours.{Allocates, AreNeighbours};
ghost use Rattle.comballoc_rules.specs.Kept.{IsCombinable, IsCombineKept};
ghost use Rattle.mach_laws.specs.Passes.{IsNoLarger};
ghost use Rattle.mach_ir.specs.Blocks.{total_block_bytes};
ghost use Rattle.mach_ir.specs.Forms.{reservation_most};
ghost use Rattle.mach_ir.specs.declared.blocks.NewBlock.{NewBlock};
ghost use Rattle.mach_ir.specs.declared.mach.Instr.{Instr};
ghost use Rattle.mach_ir.specs.declared.mach.Mach.{Mach};

/// Law: two neighbouring allocations of one straight run do not fit one reservation together.
pub fn combined_neighbours()
    ensures { (m : Mach) (blocks others : List NewBlock) →
        AreNeighbours (combined m) blocks others →
        reservation_most < total_block_bytes blocks + total_block_bytes others }
{}

/// Law: an allocation of the result takes no more than one reservation, or it is one of the function.
pub fn combined_fits()
    ensures { (m : Mach) (i : Instr) (blocks : List NewBlock) → Contains (combined m).code i →
        Allocates i blocks → (total_block_bytes blocks ≤ reservation_most)
        ⊎ ((j : Instr) × Contains m.code j × Allocates j blocks) }
{}

/// Law: the result is no larger, and has no register that the function does not have. So none gets a
/// place.
pub fn combined_is_no_larger()
    ensures { (m : Mach) → IsNoLarger m (combined m) }
{}

/// Law: a function whose allocations are combined does what it did, and is kept.
pub fn combined_is_kept()
    ensures { (m : Mach) → IsCombinable m → IsCombineKept m (combined m) }
{}
