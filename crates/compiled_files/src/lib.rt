//! That the image of a file whose functions were compiled is correct, and asks for allocations only in need: what each
//! part of the compiler gives of it.
//!
//! The crate holds definitions and laws alone.
#![tactic(auto)]

ghost use Rattle.std.specs.Prelude.{◌≡◌, ℕ, ◌+◌, ◌-◌, ◌≤◌, List, ◌∷◌, Some, length, slice_get};
ghost use Rattle.bs_words.specs.Fits.{data_start};
ghost use Rattle.cmm_data.specs.Placement.{data_end};
ghost use Rattle.cmm_front.specs.FileOf.{IsFileOf};
ghost use Rattle.cmm_lex.proofs.Languages.{AreBytes};
ghost use Rattle.cmm_meaning.specs.Layout.{Layout};
ghost use Rattle.cmm_tree.specs.Tree.{FileTree, functions};
ghost use Rattle.compiled_files.specs.Forward.{LiesForward, laid_words};
ghost use Rattle.compiled_files.specs.Image.{function_word_count};
ghost use Rattle.compiled_files.specs.Stages.{AreChained, most_nodes, selected_in};
ghost use Rattle.correctness.specs.Correct.{IsCorrect};
ghost use Rattle.correctness.specs.InNeed.{AsksInNeed};
ghost use Rattle.correctness.specs.Setting.{AreRowsOf, layout_of};
ghost use Rattle.guarded_machine.specs.Guarded.{guarded_of};
ghost use Rattle.image_form.specs.Image.{AreTables};
ghost use Rattle.image_form.specs.Tables.{Tables};
ghost use Rattle.rv_layout_rules.specs.Conditions.{CanBeLaid};
ghost use Rattle.rv_layout_rules.specs.Laid.{IsLaid};
ghost use Rattle.lin_ir.specs.Formed.{WellFormed};
ghost use Rattle.lin_ir.specs.Meaning.{NamedAt, State};
ghost use Rattle.lin_ir.specs.declared.lin.Lin.{Lin};
ghost use Rattle.lin_ir.specs.declared.lin.Line.{Line};
ghost use Rattle.function_stands.specs.Known.{IsReadyFor};
ghost use Rattle.line_stands.specs.Lines.{Nowhere};
ghost use Rattle.lin_machine.specs.Relation.{Laid, nothing_below};
ghost use Rattle.linking.specs.Assembled.{IsStub, Setup};
ghost use Rattle.linking.specs.Pace.{ProgramGoesForward, IsReached};
ghost use Rattle.linking_machine.specs.Standing.{Back};
ghost use Rattle.linking_machine.specs.Known.{HoldsWords, IsSelected, linear_program};
ghost use Rattle.mach_ir.specs.Runs.{ActivationSetting};
ghost use Rattle.moving_laws.specs.Values.{HasFunctions};
ghost use Rattle.rv_machine.specs.Loading.{IsRoom};
ghost use Rattle.rv_machine.specs.Places.{stack_bottom};
ghost use Rattle.rv_machine.specs.Run.{seen};
ghost use Rattle.rv_machine.specs.Services.{Now};
ghost use Rattle.rv_machine.specs.Sound.{IsStackBase};
ghost use Rattle.rv_pieces.specs.declared.piece.Pieces.{Pieces};

/// Law: where control comes back to a place only by an exit, and the parts of lines lie one after the other, there are
/// no more instructions between two units than the code has words.
pub fn parts_go_forward()
    ensures { (lins : ℕ → Lin) (named : ℕ → NamedAt) (laid : ℕ → Laid) (entry : ℕ → ℕ) (words : ℕ) →
        (lies : (f : ℕ) → LiesForward (lins f) (laid f) (entry f) words) →
        ProgramGoesForward State (linear_program lins named)
        (laid_words lins laid entry (λ f. (lies f).down.order)) words }
{}

/// Law: the rows of an image are those of its file, and its code has a word more than the functions.
pub fn images_have_rows()
    ensures rows { (file : FileTree) (image : Tables) (ps : List Pieces) → CanBeLaid file ps →
        IsLaid file ps image → AreRowsOf (functions file) image.funcs }
    ensures words { (file : FileTree) (image : Tables) (ps : List Pieces) → CanBeLaid file ps →
        IsLaid file ps image → function_word_count image + 1 ≤ length image.code }
{}

/// Law: an accepted text of bytes holds words, and what is selected of its functions does what these do.
pub fn selected_functions_keep()
    ensures holds { (text : List ℕ) (file : FileTree) → IsFileOf text file → AreBytes text →
        HoldsWords file }
    ensures selected { (text : List ℕ) (file : FileTree) → IsFileOf text file → (layout : Layout) →
        IsSelected file layout (selected_in file) (most_nodes (functions file)) }
{}

/// Law: wherever a run of a well-formed function is, its line finds what it is to find: a raise is on its way
/// only before the entry of a handler, a try is pushed where one is popped, and none where the function is left.
pub fn runs_are_ready()
    ensures { (lins : ℕ → Lin) (named : ℕ → NamedAt) (f : ℕ) (c : ActivationSetting) → WellFormed (lins f) →
        (u : State) (i : Line) (next : List Line) →
        IsReached State (linear_program lins named) f c u → u.rest ≡ i ∷ next →
        IsReadyFor i u.around }
{}

/// Law: the stub of an image ends its runs: after the return of the entry, or a raise that none has caught, two
/// instructions say what the text says.
pub fn stubs_end_runs()
    ensures { (file : FileTree) (image : Tables) (ps : List Pieces) (has : HasFunctions image)
        (bases : (stack : ℕ) → IsRoom stack → IsStackBase (stack_bottom - stack)) (laid : ℕ → Laid)
        (entry : ℕ → ℕ) → IsLaid file ps image →
        data_end file ≡ data_start + length image.bytes →
        (run : Setup) (f : ℕ) → slice_get image.funcs f ≡ Some run.row →
        IsStub Now (guarded_of run.schedule) seen run.stack run.heap (layout_of image)
        (data_end file)
        run.row.result
        (λ d o x. Back image has bases laid entry (λ f. Nowhere) run nothing_below d o x) }
{}

/// Law: the image of an accepted text is correct for its file, whatever passes made its functions, where all is known
/// of each of them that is known of a chained function.
pub fn images_are_correct()
    ensures { (text : List ℕ) (file : FileTree) → IsFileOf text file → AreBytes text →
        (image : Tables) (ps : List Pieces) → CanBeLaid file ps → IsLaid file ps image →
        AreTables image → AreChained file ps → IsCorrect file image }
{}

/// Law: such an image asks for an allocation only where s10 is below the limit word.
pub fn images_ask_in_need()
    ensures { (text : List ℕ) (file : FileTree) → IsFileOf text file → AreBytes text →
        (image : Tables) (ps : List Pieces) → CanBeLaid file ps → IsLaid file ps image →
        AreTables image → AreChained file ps → AsksInNeed file image }
{}
