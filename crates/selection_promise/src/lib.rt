//! What selection promises of the Mach function that it makes, as one definition, and the law that the promise is kept.
//!
//! The crate holds a definition and laws alone.
#![tactic(auto)]

ghost use Rattle.std.specs.Prelude.{ℕ, List, Option};
ghost use Rattle.cmm_tree.specs.Symbols.{DefinedSymbol};
ghost use Rattle.cmm_tree.specs.Tree.{FunctionTree};
ghost use Rattle.mach_ir.specs.Keeps.{Keeps};
ghost use Rattle.mach_ir.specs.declared.mach.Mach.{Mach};
ghost use Rattle.selection_rules.specs.Select.{selected};
ghost use Rattle.selection_promise.specs.Runs.{PlaysAs};
ghost use Rattle.selection_promise.specs.Selects.{IsAccepted, Selects};

/// Law: of each function that the front accepts, selection makes what it promises.
pub fn keeps_its_promise()
    ensures { (defined : List ℕ → Option DefinedSymbol) (f : FunctionTree) →
        IsAccepted defined f → Selects f (selected f) }
{}

/// Law: a pass that keeps what a Mach function does keeps what the text's function does.
pub fn passes_keep_the_meaning()
    ensures { (f : FunctionTree) (p q : Mach) → PlaysAs f p → Keeps p q → PlaysAs f q }
{}
