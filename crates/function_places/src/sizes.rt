//! The bytes of descriptors.
ghost use Rattle.std.specs.Prelude.{◌≡◌, ◌<◌, ◌^◌, sum_by};
ghost use Rattle.function_places.specs.Sizes.{piece_size};

use rv_pieces::Piece;

/// The bytes of the descriptor that a piece is, if it is one.
fn piece_size(piece: &Piece) -> u64
    requires { piece_size piece.now < 2 ^ 60 }
    ensures { result ≡ piece_size piece.now }
{
    match piece {
        Piece::Descriptor(descr) => 12 + 4 * descr.entries.len() as u64,
        Piece::Known(_)
        | Piece::Label(_)
        | Piece::Branch { .. }
        | Piece::Jump(_)
        | Piece::Row(_)
        | Piece::LabelAddress { .. }
        | Piece::Call(_)
        | Piece::TailCall(_)
        | Piece::SymbolAddress { .. }
        | Piece::ExternalNumber { .. } => 0,
    }
}

/// The bytes of the descriptors of a function.
pub fn code_size(code: &[Piece]) -> u64
    requires { sum_by piece_size code.now < 2 ^ 60 }
    ensures { result ≡ sum_by piece_size code.now }
{
    let mut size: u64 = 0;
    for piece in code {
        size += piece_size(piece);
    }
    size
}
