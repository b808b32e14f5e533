//! Frame descriptors of a Linear function.

use mach_ir::Seq;

/// The descriptor of a frame point that is no tail call.
#[derive(Clone, Drop)]
pub struct Descr {
    /// The number of its instruction, from 0 on.
    pub after: u32,
    /// The bytes of the frame, those of the traps that are pushed there among them.
    pub size: u32,
    /// What is live as val after it: `2 * r + 1` for register r, in rising order, then the offset
    /// from sp of each slot, in rising order.
    pub entries: Seq<u32>,
}
