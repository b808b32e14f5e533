//! What is known of the Mach function with places that the passes make of a function of an accepted text.
//!
//! The crate holds definitions and laws alone.
#![tactic(auto)]

ghost use Rattle.std.specs.Prelude.{ℕ, List, Option};
ghost use Rattle.choices.specs.declared.choices.Alloc.{Alloc};
ghost use Rattle.cmm_tree.specs.Symbols.{DefinedSymbol};
ghost use Rattle.cmm_tree.specs.Tree.{FunctionTree};
ghost use Rattle.mach_ir.specs.declared.mach.Mach.{Mach};
ghost use Rattle.prepare_rules.specs.Prepared.{IsPreparable, IsPreparedMach};
ghost use Rattle.placed_functions.specs.Placed.{IsPlacedFor};
ghost use Rattle.reg_rounds_rules.specs.Rounds.{IsRegisterAllocated};
ghost use Rattle.selection_promise.specs.Selects.{IsAccepted};
ghost use Rattle.selection_rules.specs.Select.{selected};

/// Law: selection gives what the passes over Mach ask.
pub fn selected_functions_are_preparable()
    ensures { (defined : List ℕ → Option DefinedSymbol) (tree : FunctionTree) →
        IsAccepted defined tree →
        IsPreparable (selected tree) }
{}

/// Law: what the passes and register allocation make of a function that the front accepts is known.
pub fn prepared_functions_are_placed()
    ensures { (alloc : Alloc) (defined : List ℕ → Option DefinedSymbol) (tree : FunctionTree)
        (p q : Mach) → IsAccepted defined tree → IsPreparedMach (selected tree) p →
        IsRegisterAllocated alloc p q → IsPlacedFor tree q }
{}
