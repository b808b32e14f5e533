//! Rows about sets of bits.
use anyhow::{Result, bail};
use bs_bits::Bits;
use std::alloc::{AllocError, Global};

/// What a word asks of the sets.
#[derive(Clone, Copy)]
enum Step {
    /// All of `b` goes into `a`; whether `a` grew.
    Union,
    /// All goes out of `a`.
    Clear,
    InsertA(u32),
    InsertB(u32),
    /// The number goes out of `a`.
    Remove(u32),
    /// Whether `a` has the number.
    Contains(u32),
    /// The first member of `a` from the number on.
    Next(u32),
}

/// What a step answers.
#[derive(Clone, Copy)]
enum Answer {
    Nothing,
    Truth(bool),
    Member(Option<u32>),
}

/// The two sets of a line, and what is to be shown of them.
#[derive(Drop)]
struct Sets {
    a: Bits,
    b: Bits,
    told: String,
}

impl Sets {
    /// Two empty sets of numbers below a size, of which nothing is to be shown.
    fn new(alloc: Global, size: u32) -> Result<Sets, AllocError> {
        let a = Bits::new(alloc, size)?;
        let b = Bits::new(alloc, size)?;
        let told = String::new(alloc);
        Ok(Sets { a, b, told })
    }

    /// Does what a word asks, and notes the answer.
    fn take(&mut self, alloc: Global, word: &str) -> Result<()> {
        let answer = self.answer(step_of(word)?);
        Ok(put_answer(alloc, &mut self.told, answer)?)
    }

    /// All that is to be shown, as one line.
    fn into_line(self) -> Result<String, AllocError> {
        let Sets { mut told, .. } = self;
        told.push('\n')?;
        Ok(told)
    }

    /// Does one step, and answers what was asked.
    fn answer(&mut self, step: Step) -> Answer {
        match step {
            Step::Union => return Answer::Truth(self.union()),
            Step::Contains(number) => return Answer::Truth(has(&self.a, number)),
            Step::Next(from) => return Answer::Member(self.a.next(from)),
            Step::Clear => self.a.clear(),
            Step::InsertA(number) => insert(&mut self.a, number),
            Step::InsertB(number) => insert(&mut self.b, number),
            Step::Remove(number) => remove(&mut self.a, number),
        }
        Answer::Nothing
    }

    /// Puts all of `b` into `a`, and answers whether `a` grew.
    fn union(&mut self) -> bool {
        self.a.size() == self.b.size() && self.a.union_with(&self.b)
    }
}

/// Puts a number in, if it is below the size.
fn insert(set: &mut Bits, number: u32) {
    if number < set.size() {
        set.insert(number);
    }
}

/// Takes a number out, if it is below the size.
fn remove(set: &mut Bits, number: u32) {
    if number < set.size() {
        set.remove(number);
    }
}

/// Whether a number is in the set, whose size it may be past.
fn has(set: &Bits, number: u32) -> bool {
    number < set.size() && set.contains(number)
}

/// What is asked of the sets, in order, on one line.
///
/// # Errors
///
/// A line without a size, a word of it that asks nothing of sets, a number that is none, or want of memory.
pub fn told_of_sets(alloc: Global, line: &str) -> Result<String> {
    let mut words = line.split(' ');
    let size = words.next().unwrap_or("").parse::<u32>()?;
    let mut sets = Sets::new(alloc, size)?;
    for word in words {
        sets.take(alloc, word)?;
    }
    Ok(sets.into_line()?)
}

/// What a word asks of the sets.
fn step_of(word: &str) -> Result<Step> {
    match read_step(word) {
        Some(step) => Ok(step),
        None => bail!("no word about sets: {word}"),
    }
}

/// What a word asks of the sets, if it asks anything.
fn read_step(word: &str) -> Option<Step> {
    match word {
        "|" => Some(Step::Union),
        "0" => Some(Step::Clear),
        _ => read_numbered(word),
    }
}

/// What a mark and a number after it ask of the sets, if they ask anything.
fn read_numbered(word: &str) -> Option<Step> {
    let (mark, digits) = word.split_at_checked(1)?;
    let number = digits.parse::<u32>().ok()?;
    match mark {
        "a" => Some(Step::InsertA(number)),
        "b" => Some(Step::InsertB(number)),
        "-" => Some(Step::Remove(number)),
        "?" => Some(Step::Contains(number)),
        ">" => Some(Step::Next(number)),
        _ => None,
    }
}

/// Puts an answer after what is there.
fn put_answer(alloc: Global, told: &mut String, answer: Answer) -> Result<(), AllocError> {
    told.push_str(text_of(alloc, answer)?.as_str())
}

/// The text of an answer.
fn text_of(alloc: Global, answer: Answer) -> Result<String, AllocError> {
    match answer {
        Answer::Nothing => Ok(String::new(alloc)),
        Answer::Truth(truth) => format!(in alloc; " {truth}"),
        Answer::Member(Some(member)) => format!(in alloc; " {member}"),
        Answer::Member(None) => String::from_str(alloc, " none"),
    }
}
