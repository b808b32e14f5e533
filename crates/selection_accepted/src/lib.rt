//! Each function of a file that the front accepts can be selected, and selection keeps its promise for it.
//!
//! The crate holds laws alone.
#![tactic(auto)]

ghost use Rattle.std.specs.Prelude.{◌≡◌, ℕ, List, Contains};
ghost use Rattle.cmm_data.specs.Placement.{data_end, value_of_symbol};
ghost use Rattle.cmm_tree.specs.Tree.{FunctionTree, FileTree, functions};
ghost use Rattle.cmm_meaning.specs.Setting.{Setting};
ghost use Rattle.cmm_front.specs.FileOf.{IsFileOf};
ghost use Rattle.selection_rules.specs.Select.{selected};
ghost use Rattle.selection_promise.specs.Runs.{IsSetting};
ghost use Rattle.selection_promise.specs.Selects.{Selects};

/// Law: of each function of a file that the front accepts, selection makes what it promises; and the end
/// of the file's data and its symbols are as the promise wants them.
pub fn selects_each_function()
    ensures functions { (text : List ℕ) (file : FileTree) (f : FunctionTree) → IsFileOf text file →
        Contains (functions file) f → Selects f (selected f) }
    ensures setting { (text : List ℕ) (file : FileTree) (s : Setting) → IsFileOf text file →
        s.end ≡ data_end file → s.symbol ≡ value_of_symbol file → IsSetting s }
{}
