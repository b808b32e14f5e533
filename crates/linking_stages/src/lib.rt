//! Mach and Linear are programs, and what each stage keeps of a function composes: what the last one gives does
//! what the text does.
//!
//! The crate holds definitions and laws alone.
#![tactic(auto)]

ghost use Rattle.std.specs.Prelude.{ℕ};
ghost use Rattle.cmm_meaning.specs.Layout.{Layout};
ghost use Rattle.cmm_tree.specs.Tree.{FileTree};
ghost use Rattle.lin_ir.specs.Meaning.{NamedAt, State};
ghost use Rattle.lin_ir.specs.Walks.{Reached};
ghost use Rattle.lin_ir.specs.declared.lin.Lin.{Lin};
ghost use Rattle.linking.specs.Assembled.{IsPassedOn};
ghost use Rattle.linking.specs.Keeps.{ProgramKeeps};
ghost use Rattle.linking.specs.Pace.{IsReached};
ghost use Rattle.linking.specs.Program.{IsRegularProgram};
ghost use Rattle.linking_stages.specs.Chain.{AreLowered, HoldsWords, IsGivenWords, IsSelected};
ghost use Rattle.linking_stages.specs.Stages.{linear_program};
ghost use Rattle.mach_ir.specs.Runs.{ActivationSetting};
ghost use Rattle.mach_ir.specs.declared.mach.Mach.{Mach};
ghost use Rattle.selection_rules.specs.Bounded.{BoundedDoing};

/// Law: where Linear functions keep what is selected of a file, they do what its functions do.
pub fn stages_compose()
    ensures { (file : FileTree) (layout : Layout) (most : ℕ) (machs : ℕ → Mach) (lins : ℕ → Lin)
        (named : ℕ → NamedAt) → IsSelected file layout machs most →
        AreLowered file machs lins named →
        ProgramKeeps State (linear_program lins named) file layout most IsGivenWords BoundedDoing }
{}

/// Law: a function that is handed words hands words to those that it calls, and back.
pub fn words_are_passed_on()
    ensures { (file : FileTree) (layout : Layout) → HoldsWords file →
        IsPassedOn IsGivenWords BoundedDoing file layout }
{}

/// Law: the needs of Linear functions are what their tallies and memories say.
pub fn linear_is_regular()
    ensures { (lins : ℕ → Lin) (named : ℕ → NamedAt) → IsRegularProgram State (linear_program lins named) }
{}

/// Law: where a run of a Linear function comes, some walk comes with the tries that are pushed there.
pub fn runs_keep_to_walks()
    ensures { (lins : ℕ → Lin) (named : ℕ → NamedAt) (f : ℕ) (c : ActivationSetting) (u : State) →
        IsReached State (linear_program lins named) f c u →
        Reached (lins f) u.rest u.around.tries }
{}
