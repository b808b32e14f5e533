//! Labels.

use std::marker::Model;

/// The number of a place that control goes to. Where it is, and how often, is said by
/// `WellFormed`. Contracts see the number.
/// It is a type of its own, so that code cannot take a label for a register, a place or a count. Keys of
/// tables and values that a loop copies hold the number instead: a `Copy` type with a Model in it is
/// refused in a loop.
#[derive(Clone, Copy, PartialEq, Eq, PartialOrd, Ord)]
pub struct Label(pub u32);

impl Model for Label {
    ghost use Rattle.std.specs.Prelude.{ℕ};

    ghost Value = { ℕ };

    ghost view = { λ label. label.0 };

    ghost inverse = { λ number. record { 0 = number } };
}
