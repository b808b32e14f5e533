//! Which layer the tables are about.
use crate::{arguments, images, instructions, words};
use anyhow::{Result, bail};
use std::alloc::Global;

/// Which layer a table is about, which says how its rows are read and what is shown of the answers.
#[derive(Clone, Copy)]
pub enum Layer {
    /// Arithmetic on words, and sets of bits (`words`).
    Words,
    /// What instruction words decode to (`instructions`).
    Instructions,
    /// What reading the bytes of an image comes to (`images`).
    Images,
    /// What the words of a command line are (`arguments`).
    Arguments,
}

impl Layer {
    /// The layer of the table with this name.
    ///
    /// # Errors
    ///
    /// No table has this name.
    pub fn of(name: &str) -> Result<Layer> {
        match name {
            "words" => Ok(Layer::Words),
            "instructions" => Ok(Layer::Instructions),
            "bytes" => Ok(Layer::Images),
            "arguments" => Ok(Layer::Arguments),
            _ => bail!("no table: {name}"),
        }
    }

    /// What is shown of a row. `image` has the bytes of the last image that a row gave.
    ///
    /// # Errors
    ///
    /// A row that is none of its table, or want of memory.
    pub fn said_to(self, alloc: Global, image: &mut Vec<u8>, row: &str) -> Result<Vec<u8>> {
        match self {
            Layer::Words => words::said_to(alloc, row),
            Layer::Instructions => instructions::said_to(alloc, row),
            Layer::Images => images::said_to(alloc, image, row),
            Layer::Arguments => arguments::said_to(alloc, row),
        }
    }
}
