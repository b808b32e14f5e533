//! The rows, and what is shown of each.

use crate::function::Function;
use crate::outcome::put_values;
use anyhow::{Result, bail};
use bs_words::Value;
use cmm_front::front;
use cmm_tree::File;
use cmm_walks::Checked;
use rows_reading::{value, words_of};
use rows_worlds::{Doing, World};
use std::alloc::Global;

/// The value that a word is.
fn value_of(word: &str) -> Result<Value> {
    match value(word) {
        Some(value) => Ok(value),
        None => bail!("no value: {word}"),
    }
}

fn doing(text: &str) -> Result<Doing> {
    if text == "gives" {
        return Ok(Doing::Gives(None));
    }
    match text.split_once(" ") {
        Some(("gives", word)) => Ok(Doing::Gives(Some(value_of(word)?))),
        Some(("raises", word)) => Ok(Doing::Raises(value_of(word)?)),
        _ => bail!("no doing of a call: {text}"),
    }
}

/// The arguments of a run.
fn arguments(alloc: Global, text: &str) -> Result<Vec<Value>> {
    let mut args = Vec::new(alloc);
    for word in words_of(alloc, text)? {
        args.push(value_of(word)?)?;
    }
    Ok(args)
}

/// What calls do, with bars between.
fn doings(alloc: Global, text: &str) -> Result<Vec<Doing>> {
    let mut doings = Vec::new(alloc);
    for part in text.split('|') {
        doings.push(doing(part.trim())?)?;
    }
    Ok(doings)
}

fn world<'a>(alloc: Global, file: &'a File, doings: Vec<Doing>) -> Result<World<'a>> {
    match World::of(alloc, file, doings)? {
        Some(world) => Ok(world),
        None => bail!("the text has a fault in its data, or too many items"),
    }
}

/// The rows of the table so far: the text, once it is read, and the function that is put together.
#[derive(Drop)]
pub struct Meanings {
    alloc: Global,
    text: Option<Checked>,
    function: Function,
}

impl Meanings {
    /// No row has been read.
    pub fn new(alloc: Global) -> Meanings {
        Meanings {
            alloc,
            text: None,
            function: Function::new(alloc),
        }
    }

    /// Reads a row, and gives what is shown of it: of a run its outcome, of any other row nothing.
    ///
    /// # Errors
    ///
    /// A row that is none of the table, or want of memory.
    pub fn said_to(&mut self, row: &str) -> Result<Vec<u8>> {
        let row = row.trim();
        if self.text.is_none() {
            self.read_text(row)
        } else {
            self.said_in_text(row)
        }
    }

    fn read_text(&mut self, row: &str) -> Result<Vec<u8>> {
        self.text = Some(front(self.alloc, row.as_bytes())?);
        Ok(Vec::new(self.alloc))
    }

    /// What is shown of a row after the text.
    fn said_in_text(&mut self, row: &str) -> Result<Vec<u8>> {
        match row.split_once(" ") {
            Some(("run", text)) => self.run(text),
            _ if row == "run" => self.run(""),
            _ => {
                self.add(row)?;
                Ok(Vec::new(self.alloc))
            }
        }
    }

    /// A row of a function.
    fn add(&mut self, row: &str) -> Result<()> {
        match row.split_once(" ") {
            Some(("mach", head)) => self.begin(true, head),
            Some(("lin", head)) => self.begin(false, head),
            Some(("names", text)) => self.function.add_names(self.alloc, text),
            _ if row.is_empty() => Ok(()),
            _ if row == "names" => self.function.add_names(self.alloc, ""),
            _ => self.function.add(self.alloc, row),
        }
    }

    fn begin(&mut self, is_mach: bool, head: &str) -> Result<()> {
        self.function = Function::begin(self.alloc, is_mach, head)?;
        Ok(())
    }

    /// A run: arguments, and after a bar what calls do.
    fn run(&self, text: &str) -> Result<Vec<u8>> {
        match &self.text {
            Some(checked) => self.run_in(checked.typed().file(), text),
            None => bail!("no text"),
        }
    }

    /// A run where these functions are called.
    fn run_in(&self, file: &File, text: &str) -> Result<Vec<u8>> {
        let (args, calls) = match text.split_once("|") {
            Some((args, calls)) => (args, Some(calls)),
            None => (text, None),
        };
        let doings = self.doings(calls)?;
        let args = arguments(self.alloc, args)?;
        let world = world(self.alloc, file, doings)?;
        self.said_of(world, args.as_slice())
    }

    /// What calls do, if any do something.
    fn doings(&self, calls: Option<&str>) -> Result<Vec<Doing>> {
        match calls {
            Some(calls) => doings(self.alloc, calls),
            None => Ok(Vec::new(self.alloc)),
        }
    }

    /// What is shown of a run in a world.
    fn said_of(&self, world: World, args: &[Value]) -> Result<Vec<u8>> {
        let mut said = String::new(self.alloc);
        self.put_run(&mut said, world, args)?;
        Ok(said.into_bytes())
    }

    fn put_run(&self, said: &mut String, world: World, args: &[Value]) -> Result<()> {
        self.put_call(said, args)?;
        self.function.run(world, args, said)
    }

    /// The name of the function and its arguments.
    fn put_call(&self, said: &mut String, args: &[Value]) -> Result<()> {
        said.push_str(self.function.name.as_str())?;
        put_values(said, args)?;
        said.push_str(":")?;
        Ok(())
    }
}
