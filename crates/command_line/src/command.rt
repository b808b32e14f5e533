//! Commands, and what is wrong with words that are none.
ghost use Rattle.std.specs.Prelude.{◌≡◌};
ghost use Rattle.command_line.specs.declared.command.WordsError.TheVariants.{OutOfMemory, ValueText};

use bs_words::{List, Name};
use choices::Choices;
use rv_machine::Arg;
use stages::Stage;
use std::alloc::{AllocError, AllocFailed};
use thiserror::Error;

/// A command with the values that it was given or has by default.
#[derive(Drop)]
pub enum Command {
    /// Reads a Cmm text and writes the image.
    Compile {
        /// What is chosen of how the text is compiled.
        choices: Choices,
        /// The most functions that are compiled at a time.
        jobs: u32,
    },
    /// Reads an image and writes the outcome of a run of it.
    Run(RunWords),
    /// Reads a Cmm text and writes the outcome of a run of it, and what that run needs.
    Check(CheckWords),
    /// Reads a Cmm text and writes what a stage of the compiler makes of it, by what is chosen.
    List(Choices, Stage),
    /// Makes a Cmm text of its own, compiles it, and writes how runs of the text and of the image end.
    Soak {
        /// What the generator of the text starts from.
        seed: u64,
        /// How many functions the text has.
        functions: u32,
    },
}

/// What a run is to do.
#[derive(Drop)]
pub struct RunWords {
    /// The name of the function that is called.
    pub entry: Name,
    /// The arguments of the function, in order.
    pub args: List<Arg>,
    /// What the external calls that are asked for give, in order.
    pub answers: List<Arg>,
    /// The most instructions that are retired.
    pub steps: u64,
    /// The bytes of the stack.
    pub stack: u32,
    /// The bytes of half of the heap.
    pub heap: u32,
    /// When the mover asks, and where it puts blocks.
    pub moves: Moves,
}

/// What a run of a text is to do.
#[derive(Drop)]
pub struct CheckWords {
    /// The name of the function that is called.
    pub entry: Name,
    /// The arguments of the function, in order.
    pub args: List<Arg>,
    /// What the external calls that are asked for give, in order.
    pub answers: List<Arg>,
    /// The most units of fuel, one of which each node costs when its evaluation begins.
    pub fuel: u64,
    /// What is chosen of how the text is compiled: the stack that the run needs is by it.
    pub choices: Choices,
}

/// When the mover asks during a run, and where it puts the blocks of the heap.
#[derive(Clone, Copy)]
pub enum Moves {
    /// It asks for nothing and plans nothing.
    Never,
    /// It asks before each instruction and plans nothing.
    Every,
    /// It asks and plans by the words of a generator that starts from this seed.
    Seed(u64),
}

/// Why words are no command.
#[derive(Clone, Copy, Debug, Drop, Error)]
pub enum WordsError {
    /// U1: they do not have the form of a command.
    #[error("the words are no command")]
    Words,
    /// U2: they have, but a value is not in its grammar, or outside its limits.
    #[error("the text of a value is wrong")]
    ValueText,
    /// Memory ran out.
    #[error("out of memory")]
    OutOfMemory,
}

/// A value that is not in its grammar or outside its limits: the one fault of values that take no memory.
#[derive(Clone, Copy, Drop)]
pub(crate) struct BadValue;

impl From<BadValue> for WordsError {
    ghost from_gives = { λ _ e. e ≡ ValueText };

    fn from(_error: BadValue) -> Self {
        WordsError::ValueText
    }
}

impl From<AllocError> for WordsError {
    ghost from_gives = { λ _ e. e ≡ OutOfMemory };

    fn from(_error: AllocError) -> Self {
        WordsError::OutOfMemory
    }
}

impl<T: Drop> From<AllocFailed<T>> for WordsError {
    ghost from_gives = { λ _ e. e ≡ OutOfMemory };

    fn from(_error: AllocFailed<T>) -> Self {
        WordsError::OutOfMemory
    }
}
