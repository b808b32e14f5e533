//! Mach: one function as a list of instructions over typed registers.
//!
//! Mach is the language of the middle of the compiler, as `Mach` is in OCaml's `asmcomp`. Selection
//! makes it, the passes over it change it, and linearisation takes it away. The definitions of what
//! a function does, of what is live and of when one function does what another does are in `specs`.
#![tactic(auto)]

pub mod blocks;
mod control;
pub mod graph;
pub mod label;
mod lines;
pub mod mach;
pub mod number_table;
pub mod op;
pub mod page;
pub mod places;
pub mod reg;
pub mod seq;

pub use blocks::{Blocks, NewBlock};
pub use control::places_after_op;
pub use graph::{Colours, Graph, LiveMap, Node};
pub use label::Label;
pub use lines::text;
pub use mach::{Instr, Mach, MachOp, Mark, Test};
pub use number_table::NumberTable;
pub use op::{Access, Callee, Calling, CopyKind, External, Leaving, Op, Pure, Right};
pub use places::LabelPlaces;
pub use reg::{Reg, same_comp};
pub use seq::Seq;
