//! Texts further on in others: their tokens, their trees and the functions among these.
//!
//! Where texts are joined into one, each of them begins at another place than where it stands
//! alone. It is then cut into the same tokens, they spell the same items, and all of these differ
//! in their places alone: each is as many bytes later as its text is. A line feed or a space
//! between two texts keeps tokens of the first from going on into the second.
//!
//! The crate holds definitions and laws alone.
#![tactic(auto)]

ghost use Rattle.std.specs.Prelude.{◌≡◌, ◌+◌, ◌∷◌, ◌++◌, ℕ, List, Option, None, length};
ghost use Rattle.bs_fault.specs.declared.fault.Fault.{Fault};
ghost use Rattle.cmm_lex.specs.Token.{TokenTree};
ghost use Rattle.cmm_lex.specs.Lexing.{Splits};
ghost use Rattle.cmm_lex.proofs.Languages.{AreBytes};
ghost use Rattle.cmm_tree.specs.Tree.{FunctionTree, ItemTree};
ghost use Rattle.cmm_grammar.specs.Spelling.{AreItems};
ghost use Rattle.moved_texts.specs.Moved.{moved_function, moved_items, moved_tokens};
ghost use Rattle.moved_texts.specs.Unplaced.{DifferInPlaces};

/// Law: a text is cut into tokens before a line feed, and what follows that, as it is alone.
pub fn texts_are_cut_alone()
    ensures { (at : ℕ) (text more : List ℕ) (own others : List TokenTree) (fault : Option Fault) →
        Splits at text own None → AreBytes (text ++ 10 ∷ more) →
        Splits (at + length text) (10 ∷ more) others fault →
        Splits at (text ++ 10 ∷ more) (own ++ others) fault }
{}

/// Law: so it is before a space.
pub fn texts_are_cut_before_spaces()
    ensures { (at : ℕ) (text more : List ℕ) (own others : List TokenTree) (fault : Option Fault) →
        Splits at text own None → AreBytes (text ++ 32 ∷ more) →
        Splits (at + length text) (32 ∷ more) others fault →
        Splits at (text ++ 32 ∷ more) (own ++ others) fault }
{}

/// Law: a text is cut into the same tokens wherever it begins.
pub fn tokens_are_moved()
    ensures { (d at : ℕ) (text : List ℕ) (tokens : List TokenTree) → Splits at text tokens None →
        Splits (at + d) text (moved_tokens d tokens) None }
{}

/// Law: tokens further on spell the same items further on.
pub fn items_are_moved()
    ensures { (d nesting : ℕ) (items : List ItemTree) (tokens : List TokenTree) →
        AreItems nesting items tokens →
        AreItems nesting (moved_items d items) (moved_tokens d tokens) }
{}

/// Law: a function and the same function further on differ in places alone.
pub fn moved_functions_differ_in_places()
    ensures { (d : ℕ) (f : FunctionTree) → DifferInPlaces (moved_function d f) f }
{}
