//! What the compiler makes of a function of a text does not depend on where its parts are in the
//! text.
//!
//! A function of a unit is compiled where its text stands alone, and is wanted where that text
//! stands further on in another. The two differ in places alone (`DifferInPlaces` of
//! `moved_texts`): the same is selected of them, and what is made of one from there on is made of
//! the other.
//!
//! The crate holds laws alone.
#![tactic(auto)]

ghost use Rattle.std.specs.Prelude.{◌≡◌, ℕ, List};
ghost use Rattle.cmm_tree.specs.Tree.{FunctionTree};
ghost use Rattle.moved_texts.specs.Unplaced.{DifferInPlaces};
ghost use Rattle.rv_layout_rules.specs.Externals.{calls_in_function};
ghost use Rattle.rv_layout_rules.specs.Laid.{row_at};
ghost use Rattle.rv_layout_rules.specs.declared.form.Form.{Form};
ghost use Rattle.rv_pieces.specs.declared.piece.Pieces.{Pieces};
ghost use Rattle.selection_rules.specs.Select.{selected};

/// Law: of two functions that differ in places alone the same is selected.
pub fn selection_knows_no_places()
    ensures { (f g : FunctionTree) → DifferInPlaces f g → selected f ≡ selected g }
{}

/// Law: two functions that differ in places alone have the same external calls, in the same order.
pub fn external_calls_know_no_places()
    ensures { (f g : FunctionTree) → DifferInPlaces f g →
        calls_in_function f ≡ calls_in_function g }
{}

/// Law: two functions that differ in places alone have the same row in an image.
pub fn rows_know_no_places()
    ensures { (at : ℕ) (f g : FunctionTree) (p : Pieces) (forms : List Form) → DifferInPlaces f g →
        row_at at f p forms ≡ row_at at g p forms }
{}
