//! Where the mover wants the blocks.

/// The new start that a service is to give to each block. A plan that is not valid means that the blocks
/// are packed.
#[derive(Clone, Copy)]
pub enum Plan<'a> {
    /// No plan.
    Packed,
    /// A start for each block, by serial.
    Starts(&'a [u64]),
    /// The plan that is drawn from a word of the generator.
    Drawn {
        /// The word from which the new starts are drawn.
        word: u64,
    },
}
