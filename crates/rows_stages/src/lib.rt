//! How each operation and each structure of Mach and of Linear prints.
//!
//! Functions are made in code here: one has every operation of Mach, one its structures, one every operation of Linear with
//! what is Linear's own. The wanted lines are from the rule of the texts alone, by a script.
#![tactic(auto)]

mod form;
mod function;
mod operations;
mod registers;
mod structures;

use anyhow::{Result, bail};
use std::alloc::Global;

/// The text of the function that a row names: `operations` or `structures` of Mach, or `linear`.
///
/// # Errors
///
/// A row that names no function, or want of memory.
pub fn said_to(alloc: Global, row: &str) -> Result<Vec<u8>> {
    let text = match row {
        "operations" => operations::mach_text(alloc)?,
        "structures" => structures::mach_text(alloc)?,
        "linear" => operations::lin_text(alloc)?,
        _ => bail!("no function: {row}"),
    };
    Ok(text.into_vec())
}
