//! Why bytes are no image.
ghost use Rattle.std.specs.Prelude.{◌≡◌};
ghost use Rattle.image_form.specs.declared.fault.ImageError.TheVariants.{OutOfMemory, Refused};
ghost use Rattle.image_form.specs.declared.fault.Stop.TheVariants.{Left, Memory};

use bs_fault::ImageRefusal;
use std::alloc::{AllocError, AllocFailed};
use thiserror::Error;

/// Why no image was read.
#[derive(Debug, Drop, Error)]
pub enum ImageError {
    /// No image has these bytes. It reports the first fault.
    #[error("the bytes are no image")]
    Refused(ImageRefusal),
    /// Memory ran out.
    #[error("out of memory")]
    OutOfMemory,
}

impl From<AllocError> for ImageError {
    ghost from_gives = { λ _ e. e ≡ OutOfMemory };

    fn from(_e: AllocError) -> ImageError {
        ImageError::OutOfMemory
    }
}

impl From<ImageRefusal> for ImageError {
    ghost from_gives = { λ refusal e. e ≡ Refused refusal };

    fn from(refusal: ImageRefusal) -> ImageError {
        ImageError::Refused(refusal)
    }
}

/// A field that breaks a rule or passes the end of the body.
#[derive(Clone, Copy, Debug, Drop)]
pub struct BadField {
    /// The number of bytes of the body from the field on.
    pub left: usize,
}

/// Why the body of a section was not read.
#[derive(Drop)]
pub enum Stop {
    /// Memory ran out.
    Memory,
    /// A field breaks a rule or passes the end of the body. It is known by the number of bytes of the
    /// body from the field on.
    Left(usize),
}

impl From<BadField> for Stop {
    ghost from_gives = { λ field e. e ≡ Left field.left };

    fn from(field: BadField) -> Stop {
        Stop::Left(field.left)
    }
}

impl From<AllocError> for Stop {
    ghost from_gives = { λ _ e. e ≡ Memory };

    fn from(_e: AllocError) -> Stop {
        Stop::Memory
    }
}

impl<T: Drop> From<AllocFailed<T>> for Stop {
    ghost from_gives = { λ _ e. e ≡ Memory };

    fn from(_e: AllocFailed<T>) -> Stop {
        Stop::Memory
    }
}
