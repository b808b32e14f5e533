//! Faults of texts and their places.
//!
//! A row is a Cmm text. Shown is what `cmmc compile` says of it: its line on err, or `compiled`.
//!
//! The texts are each production of the grammar with one token more, one less, or another; each fault of sizes, integers,
//! data, types and symbols; and addresses at frame points. The lines were not written by this program: those of the
//! grammar are a second reader's, the others were counted by hand.
use rows_lines::{Table, Top, Watch};
use std::alloc::AllocError;
use std::thread::Threads;

/// What the program says of a text. The only error is want of memory.
pub fn said_to<R: Threads + Sync, T: Top>(
    table: &Table<'_, R, T>,
    text: &str,
) -> Result<Vec<u8>, AllocError> {
    let answer = table.answer_of("compile", text.as_bytes(), Watch::Open)?;
    if answer.status == 0 {
        return b"compiled\n".to_vec(table.alloc());
    }
    Ok(answer.err)
}
