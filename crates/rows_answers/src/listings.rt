//! What `cmmc list` prints of texts.
//!
//! A row has the word of a stage, what of its text is shown, a bar, and a Cmm text, or `same` for the one before. Shown is
//! the `whole` text; its `first` line; the instruction on `top`, which is the line after that; its lines without their
//! address (`sizes`); how many different `slots` are in it; or the instructions of one operation, as `alloc`.
//! Instructions are shown with `_` for each register's name and `L_` for each label (`shown`).
//!
//! The answers were made by hand, from what the passes promise: names of registers (but the one that a descriptor names,
//! the first that external calls keep), and the order of moves, are not part of it.
use crate::shown::shown_of;
use anyhow::Result;
use rows_lines::{Answer, Table, Top};
use std::alloc::{AllocError, Global};
use std::thread::Threads;

/// What is shown of the text that a row asks for, under the stage and the word that says what is shown.
///
/// # Errors
///
/// An answer that is no UTF-8, or want of memory.
pub fn said_to<R: Threads + Sync, T: Top>(
    table: &mut Table<'_, R, T>,
    row: &str,
) -> Result<Vec<u8>> {
    let Some((words, text)) = row.split_once(" | ") else {
        return Ok(b"no bar\n".to_vec(table.alloc())?);
    };
    let Some((stage, part)) = words.split_once(' ') else {
        return Ok(b"no part\n".to_vec(table.alloc())?);
    };
    let answer = answered(table, stage, text)?;
    let listed = str::from_utf8(answer.out.as_slice())?;
    Ok(told(table.alloc(), stage, part, listed, &answer)?)
}

/// What the program answers to a listing of the text at a stage.
fn answered<R: Threads + Sync, T: Top>(
    table: &mut Table<'_, R, T>,
    stage: &str,
    text: &str,
) -> Result<Answer, AllocError> {
    let command = format!(in table.alloc(); "list {stage}")?;
    table.answer_to(command.as_str(), text)
}

/// The lines of an answer, of whose text `listed` a part is shown.
fn told(
    alloc: Global,
    stage: &str,
    part: &str,
    listed: &str,
    answer: &Answer,
) -> Result<Vec<u8>, AllocError> {
    let status = answer.status;
    let mut said = format!(in alloc; "{stage} {part}: status {status}\n")?.into_bytes();
    put_part(alloc, &mut said, part, listed)?;
    said.extend_from_slice(answer.err.as_slice())?;
    Ok(said)
}

/// Puts what is shown of a text after what is there.
fn put_part(alloc: Global, said: &mut Vec<u8>, part: &str, listed: &str) -> Result<(), AllocError> {
    said.extend_from_slice(shown_of(alloc, part, listed)?.as_slice())
}
