//! Lines of a table for the top call, and what `cmmc` says to each.
//!
//! A line has the words of a command, a bar, and what the command reads. That is a text; or, after `image`, a text whose
//! image is read, which options and a bar may stand before; or, after `bytes`, hexadecimal digits; or `same`, for what the
//! line before read. Before the words it may be said which reads and writes fail (`read-fails=0`, `out-fails=1`, `err-fails=0`), which writes take nothing
//! (`out-sticks=1`, `err-sticks=0`), and the most bytes of one read or write (`piece=4`).
//!
//! Each answer is the status, what went to out, in hexadecimal digits where it is an image, and what went to err, with
//! `..` where that is no whole line.
//!
//! The top call itself is handed in (`Top`), so that what is shown of its answers is checked without the compiler.
#![tactic(auto)]

ghost use Rattle.std.specs.Thread.{IsSync};

mod devices;
mod digits;
mod line;
mod sticking;
mod watch;

use bs_io::MemSource;
use devices::Devices;
use digits::{bytes_of, push_digits};
use line::Line;
use std::alloc::{AllocError, Global};
use std::thread::Threads;
pub use sticking::Sticking;
pub use watch::{Counting, Holding, Watch};

/// The top call.
/// It is a bound, so that libraries of rows rest on no compiler and are checked before it. A method learns
/// nothing from a bound `Sync` of its own, so a clause asks for it (`IsSync`).
pub trait Top {
    /// The status with which the program ends that is given these words. The watch hears of what it compiles.
    fn status<R: Threads + Sync>(
        &self,
        rt: &R,
        words: &[String],
        source: &mut MemSource,
        out: &mut Sticking,
        err: &mut Sticking,
        watch: Watch,
    ) -> u8
        requires { IsSync R.row };
}

/// What a command answers: its status, and what went to out and to err.
#[derive(Drop)]
pub struct Answer {
    /// The status with which the program ends.
    pub status: u8,
    /// The bytes that went to out.
    pub out: Vec<u8>,
    /// The bytes that went to err.
    pub err: Vec<u8>,
}

/// A table, line by line.
#[derive(Drop)]
pub struct Table<'a, R, T> {
    rt: &'a R,
    top: &'a T,
    alloc: Global,
    /// What the last line read.
    input: Vec<u8>,
}

impl<'a, R: Threads + Sync, T: Top> Table<'a, R, T> {
    /// No row has been read.
    pub fn new(rt: &'a R, top: &'a T, alloc: Global) -> Table<'a, R, T> {
        Table {
            rt,
            top,
            alloc,
            input: Vec::new(alloc),
        }
    }

    /// Where memory comes from.
    pub fn alloc(&self) -> Global {
        self.alloc
    }

    /// What the program says to a line. The only error is want of memory.
    pub fn said_to(&mut self, line: &str) -> Result<Vec<u8>, AllocError> {
        let Some((words, input)) = line.split_once(" | ") else {
            return b"no bar\n".to_vec(self.alloc);
        };
        self.read(input)?;
        let line = Line::of(self.alloc, words)?;
        let is_image = line.is_compile();
        let answer = self.answered(line, self.input.as_slice(), Watch::Open)?;
        said(self.alloc, is_image, &answer)
    }

    /// What the program answers to the words of a line, with what it reads. The only error is want of memory.
    pub fn answer_to(&mut self, words: &str, input: &str) -> Result<Answer, AllocError> {
        self.read(input)?;
        self.answer_of(words, self.input.as_slice(), Watch::Open)
    }

    /// What the program answers to the words of a line that reads these bytes. The only error is want of memory.
    pub fn answer_of(&self, words: &str, input: &[u8], watch: Watch) -> Result<Answer, AllocError> {
        self.answered(Line::of(self.alloc, words)?, input, watch)
    }

    /// Keeps what a line reads.
    fn read(&mut self, input: &str) -> Result<(), AllocError> {
        if input != "same" {
            self.input = self.input_of(input)?;
        }
        Ok(())
    }

    /// The bytes that a command reads.
    fn input_of(&self, input: &str) -> Result<Vec<u8>, AllocError> {
        if let Some(digits) = input.strip_prefix("bytes ") {
            return bytes_of(self.alloc, digits);
        }
        let Some(text) = input.strip_prefix("image ") else {
            return input.as_bytes().to_vec(self.alloc);
        };
        let mut compile = Line::of(self.alloc, "compile")?;
        let Some((options, text)) = text.split_once(" | ") else {
            return Ok(self.answered(compile, text.as_bytes(), Watch::Open)?.out);
        };
        for option in options.split(' ') {
            compile.add(self.alloc, option)?;
        }
        Ok(self.answered(compile, text.as_bytes(), Watch::Open)?.out)
    }

    /// What the program answers to a line that reads these bytes.
    fn answered(&self, line: Line, input: &[u8], watch: Watch) -> Result<Answer, AllocError> {
        let Line { words, plan } = line;
        let mut devices = Devices::new(self.alloc, plan, input.to_vec(self.alloc)?)?;
        let status = self.top.status(
            self.rt,
            words.as_slice(),
            &mut devices.source,
            &mut devices.out,
            &mut devices.err,
            watch,
        );
        devices.answer(self.alloc, status)
    }
}

/// The status, and what went to out and to err.
fn said(alloc: Global, is_image: bool, answer: &Answer) -> Result<Vec<u8>, AllocError> {
    let mut said = b"status ".to_vec(alloc)?;
    push_answer(&mut said, is_image, answer)?;
    Ok(said)
}

/// Puts the number of the status, and what went to out and to err, after what is there.
fn push_answer(said: &mut Vec<u8>, is_image: bool, answer: &Answer) -> Result<(), AllocError> {
    said.push(b'0' + answer.status % 10)?;
    said.push(b'\n')?;
    if is_image {
        push_digits(said, answer.out.as_slice())?;
    } else {
        said.extend_from_slice(answer.out.as_slice())?;
    }
    said.extend_from_slice(answer.err.as_slice())?;
    if said.ends_with(b"\n") {
        Ok(())
    } else {
        said.extend_from_slice(b"..\n")
    }
}
