//! Texts of the whole language: calls and tail calls, raises through callers, data, blocks, external calls and frame
//! calls.
//!
//! A row has the form of `rows_lines`. Shown is what `cmmc` says to it, but for the line of `check` that says the need of
//! stack: it depends on where registers lie.
//!
//! Each text is compiled, run under several ways to move blocks, and run by its meaning. What they print is known from the
//! description of the language; where that gives no output, an evaluator in another language has made it.
use anyhow::Result;
use rows_lines::{Table, Top};
use std::thread::Threads;

/// What the program says to a row, but for the lines that say how much stack is needed.
///
/// # Errors
///
/// An answer that is no UTF-8, or want of memory.
pub fn said_to<R: Threads + Sync, T: Top>(
    table: &mut Table<'_, R, T>,
    row: &str,
) -> Result<Vec<u8>> {
    let said = table.said_to(row)?;
    let mut shown = Vec::new(table.alloc());
    for line in str::from_utf8(said.as_slice())?.split_terminator('\n') {
        if !is_need(line) {
            shown.extend_from_slice(line.as_bytes())?;
            shown.push(b'\n')?;
        }
    }
    Ok(shown)
}

/// Whether the line says how much stack a run needs.
fn is_need(line: &str) -> bool {
    line.starts_with("stack ") && line != "stack out"
}
