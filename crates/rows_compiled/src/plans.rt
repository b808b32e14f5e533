//! Runs of compiled texts under plans that a hand made: valid ones, and ones that no mover can follow.
//!
//! A row has the name of a function, its argument, before how many instructions the mover asks, a bar, its plans, a bar,
//! and a text, or `same` for the one before. Plans are lists of new starts, one for each block, with commas between them
//! and semicolons between the lists. What is printed is the outcome of the run.
//!
//! The outcomes are known from the rules of moves: a plan that is not valid is no plan.
ghost use Rattle.image_form.specs.Image.{IsImage};

use anyhow::Result;
use bs_io::MemSink;
use bs_words::{List, Name};
use image_codec::read_image;
use image_form::{Image, ImageError};
use mover_runtime::{Schedule, run_image};
use rows_lines::{Table, Top};
use rv_machine::{Arg, LoadError, Setup, load};
use std::alloc::{AllocError, Global};
use std::thread::Threads;

/// The most bytes of an outcome that are kept.
const KEPT: usize = 1 << 12;

/// The bytes of the stack, and of each half of the heap.
const ROOM: u32 = 1 << 20;

/// The most instructions.
const STEPS: u64 = 100_000_000;

/// The outcome of the run of a row.
///
/// # Errors
///
/// A number of the row that is none, or want of memory.
pub fn said_to<R: Threads + Sync, T: Top>(
    table: &mut Table<'_, R, T>,
    row: &str,
) -> Result<Vec<u8>> {
    let alloc = table.alloc();
    let Some((call, rest)) = row.split_once(" | ") else {
        return Ok(b"no bar\n".to_vec(alloc)?);
    };
    let Some((plans, text)) = rest.split_once(" | ") else {
        return Ok(b"no bar\n".to_vec(alloc)?);
    };
    let Some((name, numbers)) = call.split_once(' ') else {
        return Ok(b"no call\n".to_vec(alloc)?);
    };
    let Some((argument, asks)) = numbers.split_once(' ') else {
        return Ok(b"no call\n".to_vec(alloc)?);
    };
    let answer = table.answer_to("compile", text)?;
    let argument = argument.parse::<u64>()?;
    let schedule = Schedule::Lists {
        asks: asks_before(alloc, asks.parse::<u64>()?)?,
        plans: plans_of(alloc, plans)?,
    };
    match read_image(alloc, answer.out.as_slice()) {
        Ok(image) => Ok(outcome_of(alloc, &image, name, argument, &schedule)?),
        Err(ImageError::Refused(_)) => Ok(b"no image\n".to_vec(alloc)?),
        Err(ImageError::OutOfMemory) => Ok(b"no memory\n".to_vec(alloc)?),
    }
}

/// The numbers of so many instructions.
fn asks_before(alloc: Global, count: u64) -> Result<List<u64>, AllocError> {
    let mut asks = Vec::new(alloc);
    for number in 0..count {
        asks.push(number)?;
    }
    Ok(List::from_vec(asks))
}

fn plans_of(alloc: Global, lists: &str) -> Result<List<List<u64>>> {
    let mut plans = Vec::new(alloc);
    for list in lists.split(';') {
        plans.push(List::from_vec(starts_of(alloc, list)?))?;
    }
    Ok(List::from_vec(plans))
}

/// The starts of a list, none of an empty one.
fn starts_of(alloc: Global, list: &str) -> Result<Vec<u64>> {
    let mut starts = Vec::new(alloc);
    if !list.is_empty() {
        for start in list.split(',') {
            starts.push(start.parse::<u64>()?)?;
        }
    }
    Ok(starts)
}

/// The text of the outcome of a run of a function of an image on one word.
fn outcome_of(
    alloc: Global,
    image: &Image,
    name: &str,
    argument: u64,
    schedule: &Schedule,
) -> Result<Vec<u8>, AllocError>
    requires { IsImage image.now }
{
    let mut args = Vec::new(alloc);
    args.push(Arg::Word(argument))?;
    let setup = Setup {
        entry: Name::from_vec(name.as_bytes().to_vec(alloc)?),
        args: List::from_vec(args),
        stack: ROOM,
        heap: ROOM,
    };
    let mut out = MemSink::new(alloc, KEPT, List::new(alloc), KEPT)?;
    let mut machine = match load(alloc, image, &setup) {
        Ok(machine) => machine,
        Err(LoadError::UnknownEntry) => return b"no entry\n".to_vec(alloc),
        Err(LoadError::ArgumentUnfit) => return b"unfit\n".to_vec(alloc),
        Err(LoadError::OutOfMemory) => return Err(AllocError),
    };
    let answers: [u64; 0] = [];
    let _ = run_image(&mut machine, &answers, schedule, STEPS, &mut out);
    out.bytes().to_vec(alloc)
}
