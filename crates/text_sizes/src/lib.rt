//! How much a text holds: how deep tries nest in its functions, and how many bytes it has for its
//! tokens, its external calls and its symbols.
//!
//! The crate holds definitions and laws alone.
//!
//! The bound of words by the text rests on the limit of nesting: an exit pops one trap, in two words, for
//! each try that it ends, and at most 250 tries nest. Tokens alone would not bound it.
#![tactic(auto)]

ghost use Rattle.std.specs.Prelude.{ℕ, ◌≤◌, List, Contains};
ghost use Rattle.cmm_front.specs.FileOf.{IsFileOf};
ghost use Rattle.cmm_tree.specs.Tree.{FunctionTree, FileTree, functions};
ghost use Rattle.correctness.specs.Measures.{tries};
ghost use Rattle.text_sizes.specs.Held.{IsSizeHeld};

/// Law: at most 250 tries nest in a function of a text, since parentheses nest no deeper.
pub fn tries_nest_little()
    ensures { (text : List ℕ) (file : FileTree) (f : FunctionTree) → IsFileOf text file →
        Contains (functions file) f → tries f ≤ 250 }
{}

/// Law: a text has bytes enough for its tokens, its external calls and its symbols.
pub fn texts_hold_little()
    ensures { (text : List ℕ) (file : FileTree) → IsFileOf text file → IsSizeHeld text file }
{}
