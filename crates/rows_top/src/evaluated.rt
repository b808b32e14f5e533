//! What a run of a text comes to: what `cmmc check` prints, for every text that has no fault.
//!
//! A row has the words of a `check`, a bar, and a Cmm text: `f --args=1 | (function "f" (x:int) x)`. The frames and
//! addresses of functions are made by hand here, so that no compiler has a part in what is shown. The lines are those of a
//! second evaluator, written from the rules alone.
use anyhow::{Result, bail};
use bs_words::List;
use cmm_eval::Layout;
use cmm_front::front;
use cmmc_core::{CallRefusal, call_of, report_of_run};
use command_line::{CheckWords, Command, read_words};
use std::alloc::{AllocError, Global};

/// The most functions of a text.
const FUNCTIONS: u32 = 64;

/// Frames of 32 bytes and 16 more for each function before, and addresses that are 64 bytes apart.
fn layout(alloc: Global) -> Result<Layout, AllocError> {
    let mut frames = Vec::new(alloc);
    let mut addresses = Vec::new(alloc);
    for number in 0..FUNCTIONS {
        frames.push(32 + 16 * number)?;
        addresses.push(0x1_0010 + 64 * u64::from(number))?;
    }
    Ok(Layout {
        frames: List::from_vec(frames),
        addresses: List::from_vec(addresses),
    })
}

/// The check that these words ask for.
fn check_of(alloc: Global, words: &str) -> Result<CheckWords> {
    let mut all = Vec::new(alloc);
    all.push(String::from_str(alloc, "check")?)?;
    for word in words.split(' ') {
        all.push(String::from_str(alloc, word)?)?;
    }
    match read_words(alloc, all.as_slice())? {
        Command::Check(check) => Ok(check),
        Command::Compile { .. } | Command::Run(_) | Command::List(..) | Command::Soak { .. } => {
            bail!("no check: {words}")
        }
    }
}

/// What is reported of a row.
///
/// # Errors
///
/// A row without a bar, words that are no check, a text with a fault, or want of memory.
pub fn said_to(alloc: Global, row: &str) -> Result<Vec<u8>> {
    let layout = layout(alloc)?;
    told(alloc, &layout, row)
}

/// What is reported of a row.
fn told(alloc: Global, layout: &Layout, row: &str) -> Result<Vec<u8>> {
    let Some((words, text)) = row.split_once(" | ") else {
        bail!("no bar: {row}");
    };
    let check = check_of(alloc, words)?;
    let checked = front(alloc, text.as_bytes())?;
    let file = checked.typed().file();
    match call_of(alloc, file, &check) {
        Ok(call) => {
            let told = report_of_run(alloc, file, layout, &call, check.fuel)?;
            Ok(told.into_vec())
        }
        Err(CallRefusal::UnknownEntry) => Ok(b"U3 UnknownEntry\n".to_vec(alloc)?),
        Err(CallRefusal::ArgumentUnfit) => Ok(b"U4 ArgumentUnfit\n".to_vec(alloc)?),
        Err(CallRefusal::OutOfMemory) => bail!("out of memory"),
    }
}
