//! What is made of a function of a text, and the image of a file, are as small as the text asks.
//!
//! The crate holds definitions and laws alone.
#![tactic(auto)]

ghost use Rattle.std.specs.List.{AllZip};
ghost use Rattle.std.specs.Prelude.{◌≡◌, ℕ, ◌+◌, ◌*◌, ◌^◌, ◌<◌, ◌≤◌, List, Option, None, Contains, sum_by};
ghost use Rattle.choices.specs.declared.choices.Choices.{Choices};
ghost use Rattle.cmm_front.specs.FileOf.{IsFileOf};
ghost use Rattle.cmm_tree.specs.Symbols.{DefinedSymbol};
ghost use Rattle.cmm_tree.specs.Tree.{FunctionTree, FileTree, functions};
ghost use Rattle.correctness.specs.Bounds.{IsBounded, IsRoomy};
ghost use Rattle.correctness.specs.Measures.{tries};
ghost use Rattle.image_form.specs.Tables.{Tables};
ghost use Rattle.rv_layout_rules.specs.Conditions.{CanBeLaid, weight_of};
ghost use Rattle.rv_layout_rules.specs.Laid.{IsLaid};
ghost use Rattle.rv_layout_rules.specs.TooLarge.{first_too_large};
ghost use Rattle.lin_ir.specs.Descriptors.{frame_bytes};
ghost use Rattle.lin_ir.specs.declared.descr.Descr.{Descr};
ghost use Rattle.lin_ir.specs.declared.lin.Lin.{Lin};
ghost use Rattle.chained_functions.specs.Known.{IsBoundedBy, IsMadeOf};
ghost use Rattle.rv_pieces.specs.declared.piece.Pieces.{Pieces};
ghost use Rattle.selection_accepted.specs.Known.{IsAccepted};
ghost use Rattle.code_bounds.specs.Kept.{KeepsTo};

/// Law: what is made of a function of an accepted text is as small as the text asks, and its frame fits
/// what descriptors can say.
pub fn made_functions_are_small()
    ensures bounded { (choices : Choices) (defined : List ℕ → Option DefinedSymbol)
        (tree : FunctionTree) (m : Lin) (ds : List Descr) (pieces : Pieces) →
        IsAccepted defined tree → IsMadeOf choices tree m ds pieces →
        tries tree ≤ 250 → IsBoundedBy tree ds pieces }
    ensures frame { (choices : Choices) (defined : List ℕ → Option DefinedSymbol)
        (tree : FunctionTree) (m : Lin) (ds : List Descr) (pieces : Pieces) →
        IsAccepted defined tree → IsMadeOf choices tree m ds pieces →
        frame_bytes m + 16 * tries tree ≤ 16 * tree.tokens + 32 }
    ensures fits { (choices : Choices) (defined : List ℕ → Option DefinedSymbol)
        (tree : FunctionTree) (m : Lin) (ds : List Descr) (pieces : Pieces) →
        IsAccepted defined tree → IsMadeOf choices tree m ds pieces →
        frame_bytes m + 16 * tries tree ≤ 1048576 }
{}

/// Law: the pieces that are made of each function of an accepted text keep to it.
pub fn made_functions_keep_to_their_texts()
    ensures { (choices : Choices) (text : List ℕ) (file : FileTree) → IsFileOf text file →
        (tree : FunctionTree) → Contains (functions file) tree → (m : Lin) (ds : List Descr)
        (pieces : Pieces) → IsMadeOf choices tree m ds pieces → KeepsTo tree pieces }
{}

/// Law: where they do, the image that is laid out of them is bounded; they are few; and the image of a
/// roomy file passes no limit.
pub fn images_are_bounded()
    ensures bounded { (file : FileTree) (ps : List Pieces) (image : Tables) → CanBeLaid file ps →
        IsLaid file ps image → AllZip KeepsTo (functions file) ps → IsBounded file image }
    ensures few { (text : List ℕ) (file : FileTree) (ps : List Pieces) → IsFileOf text file →
        AllZip KeepsTo (functions file) ps →
        sum_by (λ (p : Pieces). weight_of p.code) ps < 2 ^ 48 }
    ensures roomy { (text : List ℕ) (file : FileTree) (ps : List Pieces) (image : Tables) →
        IsFileOf text file → CanBeLaid file ps → IsLaid file ps image →
        AllZip KeepsTo (functions file) ps → IsRoomy file → first_too_large image ≡ None }
{}
