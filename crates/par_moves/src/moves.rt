//! A move between locations.
ghost use Rattle.std.specs.Prelude.{◌≡◌};
ghost use Rattle.par_moves.specs.Moves.{same_place, saved, from_spare};

use bs_words::{Comp, Loc};
use rv_isa::Register;

/// A move of one value of the component `comp`. `Loc::Unset` is a location like any other here.
#[derive(Clone, Copy)]
pub struct Move {
    /// Where the value is.
    pub from: Loc,
    /// Where the value goes.
    pub to: Loc,
    /// The component of the value.
    pub comp: Comp,
}

/// The scratch register t0, where the value that a cycle would lose waits.
pub const SPARE: Loc = Loc::Machine(Register::T0 as u8);

/// Whether both are one location.
pub fn is_same(a: Loc, b: Loc) -> bool
    ensures { result ≡ same_place a b }
{
    a == b
}

impl Move {
    /// The move that keeps this move's value in t0. It has this move's component, with which the value
    /// is read from t0 later.
    pub fn saved(self) -> Move
        ensures { result ≡ saved self }
    {
        Move { to: SPARE, ..self }
    }

    /// This move from t0 in place of its own source.
    pub fn from_spare(self) -> Move
        ensures { result ≡ from_spare self }
    {
        Move {
            from: SPARE,
            ..self
        }
    }
}
