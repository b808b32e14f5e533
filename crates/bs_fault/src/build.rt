//! Why no image was built.
ghost use Rattle.std.specs.Prelude.{◌≡◌};
ghost use Rattle.bs_fault.specs.declared.build.BuildError.TheVariants.{OutOfMemory};

use crate::large::Large;
use std::alloc::{AllocError, AllocFailed};
use thiserror::Error;

/// Why no image was built of a file.
#[derive(Debug, Drop, Error)]
pub enum BuildError {
    /// A section would pass its limit. It reports the first one.
    #[error("a section of the image is too large")]
    TooLarge(Large),
    /// Memory ran out.
    #[error("out of memory")]
    OutOfMemory,
}

impl From<AllocError> for BuildError {
    ghost from_gives = { λ _ e. e ≡ OutOfMemory };

    fn from(_e: AllocError) -> BuildError {
        BuildError::OutOfMemory
    }
}

impl<T: Drop> From<AllocFailed<T>> for BuildError {
    ghost from_gives = { λ _ e. e ≡ OutOfMemory };

    fn from(_e: AllocFailed<T>) -> BuildError {
        BuildError::OutOfMemory
    }
}
