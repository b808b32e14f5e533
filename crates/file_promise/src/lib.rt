//! What is promised of the image that the compiler makes of an accepted file: it is one image, it is correct, it asks for
//! allocations only in need, it is as small as the text asks, and its descriptors are exact.
//!
//! The crate holds laws alone.
//!
//! A file has fewer functions than numbers of 32 bits, since its text has at most 2^24 bytes
//! (`few_functions`). So what numbers them answers no want of memory for it.
#![tactic(auto)]

ghost use Rattle.std.specs.Prelude.{◌≡◌, ◌<◌, ℕ, All, List, None};
ghost use Rattle.choices.specs.declared.choices.Choices.{Choices};
ghost use Rattle.cmm_front.specs.FileOf.{IsFileOf};
ghost use Rattle.cmm_meaning.specs.Run.{cmm_run};
ghost use Rattle.cmm_tree.specs.Tree.{FileTree, FunctionTree};
ghost use Rattle.correctness.specs.Bounds.{IsBounded, IsRoomy};
ghost use Rattle.correctness.specs.Correct.{IsCorrect};
ghost use Rattle.correctness.specs.InNeed.{AsksInNeed};
ghost use Rattle.correctness.specs.Setting.{Entered, layout_of};
ghost use Rattle.made_once.specs.Known.{IsExact, AreTablesMadeFor};
ghost use Rattle.image_form.specs.Image.{AreTables};
ghost use Rattle.image_form.specs.Tables.{Func, Tables};
ghost use Rattle.rv_layout_rules.specs.TooLarge.{first_too_large};
ghost use Rattle.rv_machine.specs.Loading.{IsRoom};
ghost use Rattle.rv_machine.specs.Run.{Schedule, machine_run};
ghost use Rattle.file_promise.specs.Agree.{AgreeOn};

/// Law: one image is made for a file, whatever is chosen.
pub fn files_are_made_once()
    ensures { (choices : Choices) (file : FileTree) (t u : Tables) → AreTablesMadeFor choices file t →
        AreTablesMadeFor choices file u → t ≡ u }
{}

/// Law: the image that is made for the file of an accepted text is correct for it and bounded by it, it asks for an
/// allocation only where s10 is below the limit word, and each of its descriptors is exact.
pub fn made_images_are_right()
    ensures correct { (choices : Choices) (text : List ℕ) (file : FileTree) → IsFileOf text file →
        All (λ b. b < 256) text →
        (image : Tables) → AreTables image → AreTablesMadeFor choices file image → IsCorrect file image }
    ensures in_need { (choices : Choices) (text : List ℕ) (file : FileTree) → IsFileOf text file →
        All (λ b. b < 256) text →
        (image : Tables) → AreTables image → AreTablesMadeFor choices file image → AsksInNeed file image }
    ensures bounded { (choices : Choices) (text : List ℕ) (file : FileTree) → IsFileOf text file →
        All (λ b. b < 256) text →
        (image : Tables) → AreTablesMadeFor choices file image → IsBounded file image }
    ensures exact { (choices : Choices) (text : List ℕ) (file : FileTree) → IsFileOf text file →
        (image : Tables) → AreTablesMadeFor choices file image → IsExact choices file image }
{}

/// Law: no section of the image of a roomy file passes its limit.
pub fn roomy_files_fit()
    ensures { (choices : Choices) (text : List ℕ) (file : FileTree) → IsFileOf text file →
        All (λ b. b < 256) text →
        (image : Tables) →
        AreTablesMadeFor choices file image → IsRoomy file → first_too_large image ≡ None }
{}

/// Law: the images of two choices do the same, whenever their movers ask: where the run of the text is proper and its
/// needs fit both, both make the same calls and come to the same end, but for addresses of functions and of code.
pub fn choices_agree()
    ensures { (one two : Choices) (text : List ℕ) (file : FileTree) → IsFileOf text file →
        All (λ b. b < 256) text → (image other : Tables) → AreTables image → AreTables other →
        AreTablesMadeFor one file image → AreTablesMadeFor two file other →
        (stack heap : ℕ) → IsRoom stack → IsRoom heap →
        (entry : ℕ) (f : FunctionTree) (row other_row : Func) (args answers : List ℕ)
        (schedule other_schedule : Schedule) → Entered file image entry f row args answers →
        Entered file other entry f other_row args answers →
        AgreeOn (layout_of image) (layout_of other) (cmm_run file (layout_of image) entry args answers)
        (cmm_run file (layout_of other) entry args answers)
        (machine_run image row args answers stack heap schedule)
        (machine_run other other_row args answers stack heap other_schedule) stack heap }
{}
