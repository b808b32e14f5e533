//! What the machine does for each line of a Linear function gives what it does for the whole program: an image
//! whose lines are followed so is assembled, and so correct, and asks for allocations only in need.
//!
//! The crate holds definitions and laws alone.
#![tactic(auto)]

ghost use Rattle.std.specs.Prelude.{ℕ, ◌-◌};
ghost use Rattle.cmm_tree.specs.Tree.{FileTree};
ghost use Rattle.correctness.specs.Correct.{IsCorrect};
ghost use Rattle.correctness.specs.InNeed.{AsksInNeed};
ghost use Rattle.image_form.specs.Tables.{Tables};
ghost use Rattle.lin_ir.specs.Meaning.{NamedAt, State};
ghost use Rattle.lin_ir.specs.declared.lin.Lin.{Lin};
ghost use Rattle.lin_machine.specs.Relation.{Laid};
ghost use Rattle.linking.specs.Pace.{Words};
ghost use Rattle.linking_machine.specs.Compiled.{IsCompiled};
ghost use Rattle.mach_ir.specs.declared.mach.Mach.{Mach};
ghost use Rattle.moving_laws.specs.Values.{HasFunctions};
ghost use Rattle.rv_machine.specs.Loading.{IsRoom};
ghost use Rattle.rv_machine.specs.Places.{stack_bottom};
ghost use Rattle.rv_machine.specs.Sound.{IsStackBase};

/// Law: an image that is compiled from a file is correct for it.
pub fn compiled_is_correct()
    ensures { (file : FileTree) (image : Tables) (machs : ℕ → Mach) (lins : ℕ → Lin)
        (named : ℕ → NamedAt) (w : Words State) (most words : ℕ) (laid : ℕ → Laid)
        (entry : ℕ → ℕ) (has : HasFunctions image)
        (bases : (stack : ℕ) → IsRoom stack → IsStackBase (stack_bottom - stack)) →
        IsCompiled file image machs lins named w most words laid entry has bases →
        IsCorrect file image }
{}

/// Law: it asks for an allocation only where s10 is below the limit word.
pub fn compiled_asks_in_need()
    ensures { (file : FileTree) (image : Tables) (machs : ℕ → Mach) (lins : ℕ → Lin)
        (named : ℕ → NamedAt) (w : Words State) (most words : ℕ) (laid : ℕ → Laid)
        (entry : ℕ → ℕ) (has : HasFunctions image)
        (bases : (stack : ℕ) → IsRoom stack → IsStackBase (stack_bottom - stack)) →
        IsCompiled file image machs lins named w most words laid entry has bases →
        AsksInNeed file image }
{}
