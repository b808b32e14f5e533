//! The tables by which a function is split.

use crate::writes::Writes;
use dataflow::Rows;

/// The writes of open registers, which of them come to each place, and the number of each.
#[derive(Drop)]
pub struct Tables {
    /// The writes of open registers.
    pub writes: Writes,
    /// Which writes come to each place, by their indexes.
    pub rows: Rows,
    /// The number of each write, by its index.
    pub names: Vec<u32>,
}
