//! Where reading stops.
ghost use Rattle.std.specs.Prelude.{◌≡◌};
ghost use Rattle.cmm_nodes.specs.declared.stop.Stop.TheVariants.{OutOfMemory, Unexpected};

use std::alloc::{AllocError, AllocFailed};
use thiserror::Error;

/// Why a part of a text was not read. `left` is its place: the number of tokens from there to
/// the end.
#[derive(Debug, Drop, Error)]
pub enum Stop {
    /// No text goes on with this token, or ends here.
    #[error("no text goes on so")]
    Unexpected {
        /// The tokens that are left, this one counted; 0 where the text ends.
        left: usize,
    },
    /// This parenthesis is one level too deep.
    #[error("parentheses nest too deep")]
    TooDeep {
        /// The tokens that are left, this parenthesis counted.
        left: usize,
    },
    /// Memory was wanted and not there.
    #[error("out of memory")]
    OutOfMemory,
}

/// A token that no text goes on with, or the end of the text: the one fault of a part whose reading takes no
/// memory.
#[derive(Clone, Copy, Debug, Drop)]
pub struct UnexpectedToken {
    /// The tokens that are left, this one counted; 0 where the text ends.
    pub left: usize,
}

impl From<UnexpectedToken> for Stop {
    ghost from_gives = { λ token e. e ≡ Unexpected token.left };

    fn from(token: UnexpectedToken) -> Stop {
        Stop::Unexpected { left: token.left }
    }
}

impl From<AllocError> for Stop {
    ghost from_gives = { λ _ e. e ≡ OutOfMemory };

    fn from(_e: AllocError) -> Stop {
        Stop::OutOfMemory
    }
}

impl<T: Drop> From<AllocFailed<T>> for Stop {
    ghost from_gives = { λ _ e. e ≡ OutOfMemory };

    fn from(_e: AllocFailed<T>) -> Stop {
        Stop::OutOfMemory
    }
}
