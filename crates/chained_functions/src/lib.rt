//! What is known of a function that was compiled (`IsChained`), from what its passes made.
//!
//! The crate holds laws alone.
#![tactic(auto)]

ghost use Rattle.std.specs.Prelude.{ℕ, ◌+◌, ◌*◌, ◌≤◌, List, Option, length};
ghost use Rattle.choices.specs.declared.choices.Choices.{Choices};
ghost use Rattle.cmm_tree.specs.Symbols.{DefinedSymbol};
ghost use Rattle.cmm_tree.specs.Tree.{FunctionTree};
ghost use Rattle.correctness.specs.Measures.{tries};
ghost use Rattle.lin_ir.specs.Descriptors.{frame_bytes};
ghost use Rattle.lin_ir.specs.Walks.{Traps};
ghost use Rattle.lin_ir.specs.declared.descr.Descr.{Descr};
ghost use Rattle.lin_ir.specs.declared.lin.Lin.{Lin};
ghost use Rattle.lin_ir.specs.declared.lin.Line.{Line};
ghost use Rattle.made_functions.specs.Chained.{IsChained};
ghost use Rattle.made_functions.specs.Made.{IsMadeOf};
ghost use Rattle.rv_pieces.specs.declared.piece.Pieces.{Pieces};
ghost use Rattle.placed_functions.specs.Known.{IsAccepted};

/// Law: no more traps are pushed at a place of a compiled function than tries are round one of its text.
pub fn traps_are_few()
    ensures { (choices : Choices) (defined : List ℕ → Option DefinedSymbol) (tree : FunctionTree)
        (m : Lin) (ds : List Descr) (pieces : Pieces) → IsAccepted defined tree →
        IsMadeOf choices tree m ds pieces → (code : List Line) (traps : List ℕ) →
        Traps m code traps → length traps ≤ tries tree }
{}

/// Law: what the passes made of a function that the front accepts is known whole, where its frame and its traps fit
/// what descriptors can say.
pub fn made_functions_are_chained()
    ensures { (choices : Choices) (defined : List ℕ → Option DefinedSymbol) (tree : FunctionTree)
        (m : Lin) (ds : List Descr) (pieces : Pieces) → IsAccepted defined tree →
        IsMadeOf choices tree m ds pieces → frame_bytes m + 16 * tries tree ≤ 1048576 →
        IsChained tree m ds pieces }
{}
