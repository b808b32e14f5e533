//! What comes of a service.
use rv_machine::Cause;

/// What a service reports.
#[derive(Clone, Copy)]
pub enum ServiceEnd {
    /// The blocks have moved, and the program goes on.
    Goes,
    /// The blocks do not fit a half of the heap.
    HeapOut,
    /// The machine stops, for this cause.
    Stopped(Cause),
}
