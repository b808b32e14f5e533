//! What a run is given: its entry and arguments, and how much stack and heap it has.
ghost use Rattle.std.specs.Prelude.{◌≡◌};
ghost use Rattle.rv_machine.specs.declared.setup.LoadError.TheVariants.{OutOfMemory};

use bs_words::{List, Name};
use std::alloc::AllocError;
use thiserror::Error;

/// What a run is given.
#[derive(Drop)]
pub struct Setup {
    /// The function that is called.
    pub entry: Name,
    /// The arguments of the function, in order.
    pub args: List<Arg>,
    /// The bytes of the stack.
    pub stack: u32,
    /// The bytes of each half of the heap.
    pub heap: u32,
}

/// An argument: a word, or the address of a symbol of the data.
#[derive(Drop)]
pub enum Arg {
    /// A word of 64 bits.
    Word(u64),
    /// The name of a symbol of the data.
    Symbol(Name),
}

/// Why there is no machine.
#[derive(Clone, Copy, Debug, Error)]
pub enum LoadError {
    /// No function of the image has the entry's name.
    #[error("the image has no such function")]
    UnknownEntry,
    /// The arguments do not suit the entry's parameters.
    #[error("the arguments do not suit the function")]
    ArgumentUnfit,
    /// Memory ran out.
    #[error("out of memory")]
    OutOfMemory,
}

impl From<AllocError> for LoadError {
    ghost from_gives = { λ _ e. e ≡ OutOfMemory };

    fn from(_error: AllocError) -> Self {
        LoadError::OutOfMemory
    }
}
