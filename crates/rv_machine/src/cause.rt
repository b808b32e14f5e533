//! Why a machine stops.

/// What stops a machine before its program ends.
#[derive(Clone, Copy)]
pub enum Cause {
    /// The program counter has left the code, or a taken target is no multiple of 4.
    BadFetch,
    /// A word that is no instruction.
    BadWord,
    /// An access that is misaligned or not whole inside one region, or a store to code.
    BadAccess,
    /// A service that there is not, or an external call past the table.
    BadService,
    /// A request for memory of a wrong size, or an allocation pointer over no whole blocks.
    BadRequest,
    /// A stack that does not read as frames.
    BadFrame,
    /// A root that holds neither a block nor a word that may be there.
    BadRoot,
}
