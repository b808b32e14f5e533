//! How a run ends, and what is reported of it.
use bs_words::{Call, Kind, List, Obs};

/// How a run ends.
#[derive(Drop)]
pub enum Outcome {
    /// It returned a value, or none.
    Returned(Option<Obs>),
    /// It raised a value, which no handler took.
    Raised(Obs),
    /// An external call wanted an answer, and none was left.
    Asks(Call),
    /// The units did not suffice.
    More,
    /// It came to something that has no meaning, for this reason.
    Improper(Kind),
}

/// What is reported of a run.
#[derive(Drop)]
pub struct Eval {
    /// How it ended.
    pub outcome: Outcome,
    /// The external calls that were made, first to last.
    pub calls: List<Call>,
    /// The most bytes of frames and tries that were active at once.
    pub stack_need: u64,
    /// The bytes of all blocks, their headers counted.
    pub heap_bytes: u64,
    /// The units of fuel that were not spent.
    pub left: u64,
}
