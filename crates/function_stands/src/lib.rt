//! How a function lies in the image of its file: from what is known of it, whatever passes made it, and from its
//! layout, all that the laws of its lines and of its entry take as known, in every run of the image.
//!
//! The crate holds definitions and laws alone.
#![tactic(auto)]

ghost use Rattle.std.specs.Prelude.{◌≡◌, ℕ, ◌*◌, List, Some, slice_get, slice_index};
ghost use Rattle.cmm_meaning.specs.Setting.{Setting};
ghost use Rattle.cmm_tree.specs.Tree.{FileTree, FunctionTree, functions};
ghost use Rattle.function_stands.specs.Compiled.{IsImageOfPieces};
ghost use Rattle.function_stands.specs.Functions.{FunctionStands, entry_place};
ghost use Rattle.image_form.specs.Image.{stub_words};
ghost use Rattle.image_form.specs.Tables.{Func, Tables};
ghost use Rattle.rv_layout_rules.specs.Laid.{function_entries_from};
ghost use Rattle.lin_ir.specs.Descriptors.{NamesLives};
ghost use Rattle.lin_ir.specs.Meaning.{NamedAt};
ghost use Rattle.lin_ir.specs.declared.descr.Descr.{Descr};
ghost use Rattle.lin_ir.specs.declared.lin.Lin.{Lin};
ghost use Rattle.laid_files.specs.Known.{IsChained};
ghost use Rattle.moving_laws.specs.Values.{HasFunctions};
ghost use Rattle.rv_pieces.specs.declared.piece.Pieces.{Pieces};

/// Law: a function of which all is known that the compiler keeps lies in the image.
///
/// Its entry's pieces are at its entry and the part of each line at its place, one after the other;
/// what lines name stands for what it is to; and the descriptor of each frame point is found at its
/// return address and says what is live there.
pub fn functions_stand()
    ensures { (image : Tables) (file : FileTree) (ps : List Pieces) (c : Setting) (k : ℕ)
        (pieces : Pieces) (tree : FunctionTree) (m : Lin) (ds : List Descr) (named : NamedAt) →
        IsImageOfPieces image file ps c → slice_get ps k ≡ Some pieces →
        slice_get (functions file) k ≡ Some tree → IsChained tree m ds pieces → NamesLives m named →
        HasFunctions image → FunctionStands image m c named k }
{}

/// Law: functions are entered where their pieces are laid, and so say their rows.
pub fn entries_are_laid()
    ensures places { (image : Tables) (file : FileTree) (ps : List Pieces) (c : Setting)
        (it : IsImageOfPieces image file ps c) (f : ℕ) →
        entry_place image f ≡ slice_index (function_entries_from stub_words ps it.laid.forms) f }
    ensures rows { (image : Tables) (file : FileTree) (ps : List Pieces) (c : Setting) →
        IsImageOfPieces image file ps c → (f : ℕ) (row : Func) → slice_get image.funcs f ≡ Some row →
        row.offset ≡ 4 * entry_place image f }
{}
