//! The tables by which a function is spilled.

use dataflow::Rows;

/// Which registers are lost before each place, which of them are wanted there, and the number from
/// which on those of slots are.
#[derive(Drop)]
pub struct Tables {
    /// The first number of slots: above those of all registers.
    pub free: u32,
    /// The numbers of the registers that are lost before each place.
    pub lost: Rows,
    /// The numbers of the registers that are wanted before each place.
    pub wanted: Rows,
}
