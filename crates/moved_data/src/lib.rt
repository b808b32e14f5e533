//! Static data further on: where the lists of a unit lie in the image that it is linked into.
//!
//! A unit's data begins at a multiple of 4,096, of which every alignment is a divisor. So all of it
//! lies in an image as it lies in the unit, so many bytes further on.
//!
//! The crate holds definitions and laws alone.
#![tactic(auto)]

ghost use Rattle.std.specs.Prelude.{◌≡◌, ◌+◌, ◌*◌, ◌%◌, ℕ, List};
ghost use Rattle.cmm_data.specs.Placement.{end_behind, end_of_lists, lists_behind};
ghost use Rattle.cmm_tree.specs.Tree.{DataListTree};
ghost use Rattle.moved_data.specs.Moved.{align_list, lists_further_on};

/// Law: lists of static data lie as many bytes further on as the end of the data before them does,
/// where these are a multiple of 4,096.
pub fn lists_are_moved()
    ensures { (k end : ℕ) (lists : List DataListTree) →
        lists_behind (end + 4096 * k) lists ≡ lists_further_on (4096 * k) (lists_behind end lists) }
{}

/// Law: so does the end of the last list.
pub fn end_of_lists_is_moved()
    ensures { (k end : ℕ) (lists : List DataListTree) →
        end_of_lists (end + 4096 * k) lists ≡ end_of_lists end lists + 4096 * k }
{}

/// Law: the data behind the list `(align 4096)` begins at a multiple of 4,096.
pub fn units_begin_at_multiples()
    ensures { (at item_at end : ℕ) → end_behind end (align_list at item_at) % 4096 ≡ 0 }
{}
