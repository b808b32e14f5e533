//! The words, values and small types that every part of the compiler shares.
//!
//! A word is a `u64`. Its signed reading is two's complement. Arithmetic on words wraps, as the
//! RV64I and M instructions do (RISC-V Unprivileged ISA manual, "RV64I" and "M").
#![tactic(auto)]

pub mod arithmetic;
pub mod data;
pub mod list;
pub mod name;
pub mod operators;
pub mod symbol;
pub mod types;
pub mod values;

pub use arithmetic::{add, div, mul, mulh, rem, sar, sext, shl, shr, signed, sub};
pub use data::{BOUND_ERROR, DATA_LIMIT, DATA_START};
pub use list::List;
pub use name::Name;
pub use operators::{CmpOp, IntOp};
pub use symbol::is_symbol;
pub use types::{Chunk, Comp, Loc, Ret, Ty};
pub use values::{Call, Kind, Obs, Value};
