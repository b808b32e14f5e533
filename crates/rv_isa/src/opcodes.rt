//! The major opcodes, bits 6 to 0 of a word: the manual's "RISC-V base opcode map".

/// Loads of bytes to doublewords: type I.
pub const LOAD: u8 = 0b0000011;

/// Operations on a register and an immediate: type I.
pub const OP_IMM: u8 = 0b0010011;

/// Adds an upper immediate to pc: type U.
pub const AUIPC: u8 = 0b0010111;

/// Operations on the low word of a register and an immediate: type I.
pub const OP_IMM_32: u8 = 0b0011011;

/// Stores of bytes to doublewords: type S.
pub const STORE: u8 = 0b0100011;

/// Operations on two registers: type R.
pub const OP: u8 = 0b0110011;

/// Loads an upper immediate: type U.
pub const LUI: u8 = 0b0110111;

/// Operations on the low words of two registers: type R.
pub const OP_32: u8 = 0b0111011;

/// Conditional branches: type B.
pub const BRANCH: u8 = 0b1100011;

/// The indirect jump that links: type I.
pub const JALR: u8 = 0b1100111;

/// The jump that links: type J.
pub const JAL: u8 = 0b1101111;

/// Calls of the environment: type I.
pub const SYSTEM: u8 = 0b1110011;
