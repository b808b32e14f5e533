//! Whether two places are one.
ghost use Rattle.std.specs.Prelude.{◌≡◌};
ghost use Rattle.lin_ir.specs.Meaning.{same_loc};

use bs_words::Loc;

/// Whether both are one place. `Loc::Unset` is no place, so it is not one with itself.
pub fn same_loc(left: Loc, right: Loc) -> bool
    ensures { result ≡ same_loc left right }
{
    match (left, right) {
        (Loc::Machine(one), Loc::Machine(two)) => one == two,
        (Loc::Slot(one), Loc::Slot(two)) => one == two,
        (Loc::Machine(_one), Loc::Slot(_two)) => false,
        (Loc::Slot(_one), Loc::Machine(_two)) => false,
        (Loc::Machine(_one), Loc::Unset) => false,
        (Loc::Slot(_one), Loc::Unset) => false,
        (Loc::Unset, _right) => false,
    }
}
