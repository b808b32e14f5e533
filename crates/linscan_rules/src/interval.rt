//! Intervals of registers, as a table.

use bs_words::List;

/// Where a register is in the text of a function: from the first place to the last.
#[derive(Clone, Copy)]
pub struct Interval {
    /// The number of the register.
    pub register: u32,
    /// The first place. The first instruction is at 0.
    pub from: u32,
    /// The last place.
    pub to: u32,
}

/// The intervals of the registers of a function.
#[derive(Clone, Drop)]
pub struct Intervals {
    /// One for each register that is anywhere, by rising number.
    pub list: List<Interval>,
}
