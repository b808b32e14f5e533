//! What a word, eight hexadecimal digits, decodes to, and the word that this encodes to.
//!
//! The table has each row of the instruction set with its fields at their edges, and words of no row. Its first part is
//! LLVM's assembler's; all of it was written again from the RISC-V manual's tables by a script.
use anyhow::Result;
use rv_isa::{decode, encode};
use std::alloc::Global;

/// What is shown of a row.
pub(crate) fn said_to(alloc: Global, row: &str) -> Result<Vec<u8>> {
    match decode(u32::from_str_radix(row, 16)?) {
        Some(instr) => {
            let again = encode(instr);
            Ok(format!(in alloc; "{instr:?} {again:08x}\n")?.into_bytes())
        }
        None => Ok(b"no row\n".to_vec(alloc)?),
    }
}
