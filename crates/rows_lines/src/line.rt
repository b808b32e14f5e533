//! The words of a line.
use crate::devices::Plan;
use std::alloc::{AllocError, Global};

/// The words of the command, and what is said before them.
#[derive(Drop)]
pub(crate) struct Line {
    /// The words of the command.
    pub words: Vec<String>,
    /// The reads and writes that fail.
    pub plan: Plan,
}

impl Line {
    /// The line of this text. The only error is want of memory.
    pub fn of(alloc: Global, text: &str) -> Result<Line, AllocError> {
        let mut line = Line {
            words: Vec::new(alloc),
            plan: Plan::new(alloc),
        };
        for word in text.split(' ') {
            line.add(alloc, word)?;
        }
        Ok(line)
    }

    /// Whether the answer's out is an image.
    pub fn is_compile(&self) -> bool {
        matches!(self.words.first(), Some(word) if word.as_str() == "compile")
    }

    /// Takes the next word in.
    pub fn add(&mut self, alloc: Global, word: &str) -> Result<(), AllocError> {
        let (name, digits) = word.split_once('=').unwrap_or(("", word));
        let number = number_of(digits);
        let pushed = match name {
            "read-fails" => self.plan.read_fails.push(number),
            "out-fails" => self.plan.out.fails.push(number),
            "err-fails" => self.plan.err.fails.push(number),
            "out-sticks" => self.plan.out.sticks.push(number),
            "err-sticks" => self.plan.err.sticks.push(number),
            "piece" => {
                self.plan.piece = number as usize;
                Ok(())
            }
            _ => return self.add_word(alloc, word),
        };
        pushed?;
        Ok(())
    }

    /// Takes the next word of the command in.
    fn add_word(&mut self, alloc: Global, word: &str) -> Result<(), AllocError> {
        self.words.push(String::from_str(alloc, word)?)?;
        Ok(())
    }
}

/// The number that the digits write, and 0 where they write none.
fn number_of(digits: &str) -> u64 {
    match digits.parse::<u64>() {
        Ok(number) => number,
        Err(_) => 0,
    }
}
