//! What a run keeps that never goes back.
ghost use Rattle.std.specs.Prelude.{◌≡◌, ◌<◌, ◌-◌};
ghost use Rattle.cmm_meaning.specs.State.{deepened};
ghost use Rattle.eval_frames.specs.Views.{world_view};

use bs_words::{Call, Kind};
use cmm_values::Memory;

/// Why a run stops before its end.
#[derive(Drop)]
pub enum Stop {
    /// No unit of fuel was left.
    OutOfFuel,
    /// The run is improper.
    NotProper(Kind),
    /// An external call wanted an answer, and none was left.
    NoAnswer(Call),
}

/// The world of a run.
#[derive(Drop)]
pub struct World<'a> {
    /// Units of fuel that are left.
    pub left: u64,
    /// The most bytes of frames and tries that were active at once, so far.
    pub stack_need: u64,
    /// The blocks and the static data.
    pub memory: Memory,
    /// The external calls so far, first to last.
    pub made: Vec<Call>,
    /// The answers that are left.
    pub answers: &'a [u64],
}

impl World<'_> {
    /// Takes a unit, where one is left.
    pub fn spend(&mut self)
        requires { 0 < self.old.left }
        ensures { self.new ≡ record self.old { left = self.old.left - 1 } }
    {
        self.left -= 1;
    }

    /// Notes that the stack has come to so many bytes.
    pub fn deepen(&mut self, bytes: u64)
        ensures { world_view self.new ≡ deepened bytes (world_view self.old) }
    {
        self.stack_need = self.stack_need.max(bytes);
    }
}
