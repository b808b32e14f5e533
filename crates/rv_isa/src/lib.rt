//! The instruction words of RV64IM: the table of rows, `encode` and `decode`.
//!
//! The rows are those of the RISC-V Unprivileged ISA manual, chapter "RV32/64G Instruction Set
//! Listings", for RV32I and RV64I without FENCE and EBREAK, and for RV32M and RV64M.
//! `encode` and `decode` are inverse to each other on the table.
#![tactic(auto)]

pub mod decoding;
pub mod encoding;
pub mod instr;
pub mod opcodes;
pub mod register;
pub mod rows;
pub mod word;

pub use decoding::decode;
pub use encoding::encode;
pub use instr::{
    AluImmOp, AluOp, AluWordOp, Condition, Instr, LoadWidth, ShiftOp, ShiftWordOp, StoreWidth,
};
pub use register::{ARGUMENT_REGISTERS, COLOURS, Register};
