//! What the machine does in the part of a Linear line that computes, loads, stores, tests or jumps: it
//! follows the line, in at most the words of the part.
//!
//! The crate holds laws alone.
#![tactic(auto)]

ghost use Rattle.line_values.specs.Followed.{BranchesAreFollowed, PlainLinesAreFollowed};
ghost use Rattle.line_stands.specs.Lines.{Nowhere};

/// The machine follows each plain line, wherever its operands and its result are, whatever its numbers
/// are and in whatever form its branches and jumps are.
pub fn plain_lines_are_followed()
    ensures { PlainLinesAreFollowed Nowhere }
{}

/// A branch takes at least one instruction, whichever way it goes.
pub fn branches_are_followed()
    ensures { BranchesAreFollowed Nowhere }
{}
