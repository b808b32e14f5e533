//! A file's text runs alike with any two images: what a run takes from an image enters the words that are shown for
//! functions, and how many bytes of stack the run needs, and nothing else.
//!
//! The crate holds definitions and one law.
#![tactic(auto)]

ghost use Rattle.std.specs.Prelude.{ℕ, List};
ghost use Rattle.cmm_meaning.specs.Layout.{Layout};
ghost use Rattle.cmm_meaning.specs.Run.{cmm_run};
ghost use Rattle.cmm_tree.specs.Tree.{FileTree};
ghost use Rattle.layout_laws.specs.Shown.{AreRunsAlike};

/// Law: two runs of one function of a file, with two layouts, on the same words, answers and units, are alike.
pub fn layouts_run_alike()
    ensures { (file : FileTree) (one two : Layout) (entry : ℕ) (args answers : List ℕ) (n : ℕ) →
        AreRunsAlike one two (cmm_run file one entry args answers n) (cmm_run file two entry args answers n) }
{}
