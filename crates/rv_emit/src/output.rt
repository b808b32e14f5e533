//! Pieces while they are made.
ghost use Rattle.std.specs.Prelude.{◌≡◌, [], ◌∷◌, IfOk};
ghost use Rattle.rv_emit.specs.Outputs.{AddsPieces};

use rv_isa::Instr;
use rv_pieces::Piece;
use std::alloc::{AllocError, Global};

/// The pieces so far. Each method puts some after them.
#[derive(Drop)]
pub struct Output {
    /// The pieces, first to last.
    pub pieces: Vec<Piece>,
    /// Where memory comes from.
    pub alloc: Global,
}

impl Output {
    /// No pieces. It takes no memory.
    pub fn new(alloc: Global) -> Output
        ensures { result.pieces.items ≡ [] }
    {
        Output {
            pieces: Vec::new(alloc),
            alloc,
        }
    }

    /// One piece. The only error is want of memory.
    pub fn put(&mut self, piece: Piece) -> Result<(), AllocError>
        ensures { IfOk result (λ _. AddsPieces self.old self.new (piece ∷ [])) }
    {
        self.pieces.push(piece)?;
        Ok(())
    }

    /// An instruction whose numbers are all known. The only error is want of memory.
    pub fn known(&mut self, instr: Instr) -> Result<(), AllocError>
        ensures { IfOk result (λ _. AddsPieces self.old self.new (Piece.Known instr ∷ [])) }
    {
        self.pieces.push(Piece::Known(instr))?;
        Ok(())
    }
}
