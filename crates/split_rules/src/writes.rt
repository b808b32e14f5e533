//! What a write of a register is known by.

/// A write of a register: how many instructions come after it, and the register's number. The entry
/// writes the parameters, before all instructions.
#[derive(Clone, Copy)]
pub struct Write {
    /// How many instructions come after it.
    pub left: u32,
    /// The number of the register.
    pub number: u32,
}
