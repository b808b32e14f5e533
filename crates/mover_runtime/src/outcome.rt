//! How runs end.
use bs_words::Obs;
use rv_machine::Cause;

/// How a run has ended, or that it goes on.
#[derive(Clone, Copy)]
pub enum RunEnd {
    /// The entry has returned, with a value or none.
    Returned(Option<Obs>),
    /// A raise of this value was caught by no handler.
    Raised(Obs),
    /// An external call or a frame call wanted more answers than were left.
    Asks,
    /// As many instructions as were allowed have retired.
    More,
    /// An instruction would have set the stack pointer below the stack's base.
    StackOut,
    /// The blocks do not fit half of the heap.
    HeapOut,
    /// The machine has stopped, for this cause.
    Stopped(Cause),
}
