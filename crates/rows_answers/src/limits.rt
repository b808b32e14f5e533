//! What `cmmc` says to texts at the ends of its limits, and just past them.
//!
//! A row has the form of a text, a number that says how long it becomes (`texts` has the forms), and the words of a
//! command. What it answers is the status; what went to out, of an image the number of its bytes alone; and what went to
//! err. The answers were counted by hand, and by a script that makes the same texts.
use crate::texts::text_of;
use anyhow::Result;
use rows_lines::{Answer, Table, Top};
use std::alloc::{AllocError, Global};
use std::thread::Threads;

/// The lines of a row.
///
/// # Errors
///
/// A number of the row that is none, a text that is no UTF-8, or want of memory.
pub fn said_to<R: Threads + Sync, T: Top>(
    table: &mut Table<'_, R, T>,
    row: &str,
) -> Result<Vec<u8>> {
    let Some((form, rest)) = row.split_once(' ') else {
        return Ok(b"no number\n".to_vec(table.alloc())?);
    };
    let Some((number, words)) = rest.split_once(' ') else {
        return Ok(b"no command\n".to_vec(table.alloc())?);
    };
    said_of(table, form, number.parse::<u32>()?, words)
}

/// What is said of the words of a command, over the text of a form.
fn said_of<R: Threads + Sync, T: Top>(
    table: &mut Table<'_, R, T>,
    form: &str,
    number: u32,
    words: &str,
) -> Result<Vec<u8>> {
    let answer = answered(table, form, number, words)?;
    let head = head_of(table.alloc(), form, number, answer.status)?;
    Ok(told(table.alloc(), head, words == "compile", &answer)?)
}

/// What the program answers to the words, over the text of a form.
fn answered<R: Threads + Sync, T: Top>(
    table: &mut Table<'_, R, T>,
    form: &str,
    number: u32,
    words: &str,
) -> Result<Answer> {
    let input = input_of(table.alloc(), form, number, words.starts_with("run "))?;
    Ok(table.answer_to(words, str::from_utf8(input.as_slice())?)?)
}

/// What the program reads: the text of a form, or the word that has its image read.
fn input_of(alloc: Global, form: &str, number: u32, is_run: bool) -> Result<Vec<u8>, AllocError> {
    let head = if is_run { "image " } else { "" };
    let mut input = head.as_bytes().to_vec(alloc)?;
    put_text(alloc, &mut input, form, number)?;
    Ok(input)
}

/// Puts the text of a form after what is there.
fn put_text(alloc: Global, input: &mut Vec<u8>, form: &str, number: u32) -> Result<(), AllocError> {
    input.extend_from_slice(text_of(alloc, form, number)?.as_slice())
}

/// The first line of an answer.
fn head_of(alloc: Global, form: &str, number: u32, status: u8) -> Result<Vec<u8>, AllocError> {
    Ok(format!(in alloc; "{form} {number}, status {status}\n")?.into_bytes())
}

/// The lines of an answer, of which the first is there.
fn told(
    alloc: Global,
    mut lines: Vec<u8>,
    is_image: bool,
    answer: &Answer,
) -> Result<Vec<u8>, AllocError> {
    if is_image && answer.status == 0 {
        put_size(alloc, &mut lines, answer.out.as_slice().len())?;
    } else {
        lines.extend_from_slice(answer.out.as_slice())?;
    }
    lines.extend_from_slice(answer.err.as_slice())?;
    Ok(lines)
}

/// Puts the line of an image of so many bytes after what is there.
fn put_size(alloc: Global, lines: &mut Vec<u8>, bytes: usize) -> Result<(), AllocError> {
    lines.extend_from_slice(format!(in alloc; "{bytes} bytes\n")?.as_bytes())
}
