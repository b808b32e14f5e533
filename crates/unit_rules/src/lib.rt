//! The code of units that are compiled apart, and what becomes of it where they are linked.
//!
//! The words of a unit are moved as they are: what is relative, branches, calls by distance and
//! handlers' addresses, stays. What is not is a pair of a lui and an addi of one register, and has
//! an entry in the unit's relocation table by which linking gives it its number, as the linker of
//! an object file does: the address of a function or of static data, or the number of an external
//! call. The words that come out are those that layout puts there for the names of the linked
//! image.
//!
//! The crate holds definitions and laws alone.
#![tactic(auto)]

ghost use Rattle.std.specs.Prelude.{◌≡◌, ◌+◌, ◌*◌, ◌^◌, ◌<◌, ◌++◌, Bool, false, ℕ, List, [], length, map};
ghost use Rattle.bs_words.specs.External.{External};
ghost use Rattle.bs_words.specs.Fits.{data_start};
ghost use Rattle.bs_words.specs.Symbol.{caml_bound_error};
ghost use Rattle.cmm_tree.specs.Tree.{FileTree};
ghost use Rattle.rv_isa.specs.Encoding.{encoded};
ghost use Rattle.rv_layout_rules.specs.declared.form.Form.{Form};
ghost use Rattle.rv_layout_rules.specs.Externals.{external_number, externals, firsts_behind};
ghost use Rattle.rv_layout_rules.specs.Laid.{address_of_place, code_from};
ghost use Rattle.rv_layout_rules.specs.Words.{number_into};
ghost use Rattle.rv_pieces.specs.declared.piece.Pieces.{Pieces};
ghost use Rattle.unit_rules.specs.Relocated.{AllCallsMove, AllSuffice, code_by, entries_applied, entries_of_code, set_pair, symbol_addresses};

/// Law: the code of an image is that of its pieces by what its names stand for.
pub fn images_have_code_by_names()
    ensures { (file : FileTree) (entries : List ℕ) (at : ℕ) (ps : List Pieces)
        (forms : List (List Form)) →
        code_from file entries at ps forms
        ≡ code_by (symbol_addresses file entries) (external_number (externals file)) at ps forms }
{}

/// Law: a pair that is given a number is the pair of that number.
pub fn pairs_get_numbers()
    ensures { (register old new : ℕ) (rest : List ℕ) → register < 32 →
        set_pair new (map encoded (number_into register old) ++ rest)
        ≡ map encoded (number_into register new) ++ rest }
{}

/// Law: the code of a unit that begins at word `at` where it is laid out alone, and `q` words
/// further on in an image, is there, with its entries applied, what is laid out for the names of
/// that image. Functions that are called by distance move along, and caml_bound_error stays where
/// it is.
pub fn units_are_moved()
    ensures { (symbol named : List ℕ → ℕ) (external numbered : External → ℕ) (q at : ℕ)
        (ps : List Pieces) (forms : List (List Form)) (before behind : List ℕ) →
        length before ≡ q + at → AllCallsMove (4 * q) symbol named ps forms →
        symbol caml_bound_error ≡ named caml_bound_error →
        address_of_place (q + at + length (code_by symbol external at ps forms)) + 8 < 2 ^ 32 →
        entries_applied (entries_of_code named numbered (q + at) ps forms)
        (before ++ (code_by symbol external at ps forms ++ behind))
        ≡ before ++ (code_by named numbered (q + at) ps forms ++ behind) }
{}

/// Law: caml_bound_error is where the data begins, in the image of every file.
pub fn the_built_in_symbol_stays()
    ensures { (file : FileTree) (entries : List ℕ) →
        symbol_addresses file entries caml_bound_error ≡ data_start }
{}

/// Law: functions that are called by distance move along, where all do that are not far and the
/// forms are such that what is far is called by address.
pub fn near_callees_move()
    ensures { (far : List ℕ → Bool) (d : ℕ) (symbol named : List ℕ → ℕ)
        (ps : List Pieces) (forms : List (List Form)) →
        ((name : List ℕ) → far name ≡ false → named name ≡ symbol name + d) →
        AllSuffice far ps forms → AllCallsMove d symbol named ps forms }
{}

/// Law: what is put together of lists of external calls, each of which has its rows once, is what
/// is put together of the whole lists.
pub fn externals_are_merged()
    ensures { (before calls : List External) →
        firsts_behind before (firsts_behind [] calls) ≡ firsts_behind before calls }
{}

/// Law: the external calls of two lists, each row once, are those of the first and then the others
/// of the second.
pub fn externals_are_joined()
    ensures { (before calls others : List External) →
        firsts_behind before (calls ++ others) ≡ firsts_behind (firsts_behind before calls) others }
{}
