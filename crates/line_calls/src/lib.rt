//! The step from a Linear line to the machine, for the lines that leave a function or enter it: entries, returns,
//! calls, raises, tries, allocations and external calls, wherever the blocks lie and whenever the mover asks.
//!
//! The lemmas that prove the laws are over any code in which t0 is said to be live; the laws take nowhere,
//! since a clause has to be small.
//!
//! The crate holds definitions and laws alone.
#![tactic(auto)]

ghost use Rattle.line_calls.specs.Laws.{EntryFollows, EveryLineFollows, LineFollows};
ghost use Rattle.line_stands.specs.Lines.{Nowhere};

/// Law: the words of a line that calls, leaves a function, raises, allocates, or pushes, pops or enters a try do
/// what the line does.
pub fn lines_are_followed()
    ensures { LineFollows Nowhere }
{}

/// Law: the words of every line do what the line does, of whatever kind it is.
pub fn every_line_is_followed()
    ensures { EveryLineFollows Nowhere }
{}

/// Law: the words of a function's entry come to its first line with its arguments, or the stack is passed.
pub fn entries_are_followed()
    ensures { EntryFollows Nowhere }
{}
