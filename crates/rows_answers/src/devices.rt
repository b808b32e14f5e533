//! What each command answers when one read or one write of its devices goes wrong, the first, the second and so on, up to
//! the first number at which nothing changes.
//!
//! A row has the words of a command, with the most bytes of one read or write before them, a bar, and what the command
//! reads (`rows_lines` has the form). For it comes a line with the status and how many bytes go to out, and with what goes
//! to err; and then, where the words do not begin with `once`, one for each trial: which read fails, or which write of out
//! or err fails or takes nothing, and what is answered then, or `as without`. The bytes that out holds after a trial are
//! the front of what it holds without, or the line says that they are not.
//!
//! The answers were made by a script that knows how long each output is and what the rules say of statuses.
use rows_lines::{Answer, Table, Top};
use std::alloc::{AllocError, Global};
use std::thread::Threads;

/// What goes wrong: the word that says so in a line of `rows_lines`.
const TROUBLES: [&str; 5] = [
    "read-fails",
    "out-fails",
    "out-sticks",
    "err-fails",
    "err-sticks",
];

/// The most trials of one trouble.
const TRIALS: u64 = 256;

/// The lines of a command. The only error is want of memory.
pub fn said_to<R: Threads + Sync, T: Top>(
    table: &mut Table<'_, R, T>,
    row: &str,
) -> Result<Vec<u8>, AllocError> {
    let Some((words, input)) = row.split_once(" | ") else {
        return b"no bar\n".to_vec(table.alloc());
    };
    match words.strip_prefix("once ") {
        Some(command) => once(table, words, command, input),
        None => with_trials(table, words, input),
    }
}

/// The line of a command that is not tried with trouble.
fn once<R: Threads + Sync, T: Top>(
    table: &mut Table<'_, R, T>,
    words: &str,
    command: &str,
    input: &str,
) -> Result<Vec<u8>, AllocError> {
    let answer = table.answer_to(command, input)?;
    without(table.alloc(), words, &answer)
}

/// The line of a command, and those of its trials.
fn with_trials<R: Threads + Sync, T: Top>(
    table: &mut Table<'_, R, T>,
    words: &str,
    input: &str,
) -> Result<Vec<u8>, AllocError> {
    let whole = table.answer_to(words, input)?;
    let mut said = without(table.alloc(), words, &whole)?;
    for trouble in TROUBLES {
        put_trials(table, &mut said, words, trouble, &whole)?;
    }
    Ok(said)
}

/// The line of what is answered without trouble.
fn without(alloc: Global, words: &str, whole: &Answer) -> Result<Vec<u8>, AllocError> {
    let mut said = format!(in alloc; "{words}: ")?.into_bytes();
    put_answer(alloc, &mut said, whole, whole)?;
    Ok(said)
}

/// Puts the lines of the trials of a trouble, up to the first that changes nothing, after what is there.
fn put_trials<R: Threads + Sync, T: Top>(
    table: &mut Table<'_, R, T>,
    said: &mut Vec<u8>,
    words: &str,
    trouble: &str,
    whole: &Answer,
) -> Result<(), AllocError> {
    for number in 0..TRIALS {
        let answer = tried(table, words, trouble, number)?;
        put_head(table.alloc(), said, trouble, number)?;
        if is_same(&answer, whole) {
            return said.extend_from_slice(b"as without\n");
        }
        put_answer(table.alloc(), said, &answer, whole)?;
    }
    Ok(())
}

/// What is answered to a trial.
fn tried<R: Threads + Sync, T: Top>(
    table: &mut Table<'_, R, T>,
    words: &str,
    trouble: &str,
    number: u64,
) -> Result<Answer, AllocError> {
    let line = format!(in table.alloc(); "{trouble}={number} {words}")?;
    table.answer_to(line.as_str(), "same")
}

/// Puts what a line has before the answer to a trial after what is there.
fn put_head(
    alloc: Global,
    said: &mut Vec<u8>,
    trouble: &str,
    number: u64,
) -> Result<(), AllocError> {
    said.extend_from_slice(format!(in alloc; "  {trouble}={number}: ")?.as_bytes())
}

/// Whether the answers are the same.
fn is_same(answer: &Answer, whole: &Answer) -> bool {
    answer.status == whole.status
        && answer.out.as_slice() == whole.out.as_slice()
        && answer.err.as_slice() == whole.err.as_slice()
}

/// Puts the line of an answer, where `whole` is the one without trouble, after what is there.
fn put_answer(
    alloc: Global,
    said: &mut Vec<u8>,
    answer: &Answer,
    whole: &Answer,
) -> Result<(), AllocError> {
    let status = answer.status;
    let held = answer.out.as_slice().len();
    let is_front = whole.out.as_slice().starts_with(answer.out.as_slice());
    let front = if is_front { "" } else { " not the front" };
    let head = format!(in alloc; "status {status}, out {held}{front}, err ")?;
    said.extend_from_slice(head.as_bytes())?;
    put_err(said, answer.err.as_slice())
}

/// Puts what went to err after what is there, and two dots where that is no whole line.
fn put_err(said: &mut Vec<u8>, err: &[u8]) -> Result<(), AllocError> {
    said.extend_from_slice(err)?;
    if said.ends_with(b"\n") {
        Ok(())
    } else {
        said.extend_from_slice(b"..\n")
    }
}
