//! The machine: an RV64IM hart over the regions of a run.
//!
//! The definitions are in `specs/`: `Hart` has one instruction, `Services` what an ECALL asks for,
//! `Start` the state in which a run begins, and `Run` a whole run under a schedule of the mover.
#![tactic(auto)]

pub mod arithmetic;
pub mod blocks;
pub mod cause;
mod code;
pub mod loading;
pub mod machine;
pub mod memory;
pub mod observe;
pub mod region;
mod runtime;
pub mod setup;
pub mod space;
pub mod start;
mod step;
pub mod step_end;
pub mod table;

pub use blocks::BlockPlace;
pub use cause::Cause;
pub use code::CODE_START;
pub use loading::{load, word_of_arg};
pub use machine::Machine;
pub use memory::Memory;
pub use setup::{Arg, LoadError, Setup};
pub use space::Space;
pub use start::MOST_ROOM;
pub use step_end::StepEnd;
pub use table::Table;
