//! Where a walk of a Linear function is.

use lin_ir::Seq;

/// A place of a walk, with the traps that are pushed there.
#[derive(Clone, Drop)]
pub struct Position {
    /// The number of the next line, from 0 on; after the last line, the number of lines.
    pub place: u32,

    /// The labels of the handlers, that of the innermost trap first.
    pub tries: Seq<u32>,
}
