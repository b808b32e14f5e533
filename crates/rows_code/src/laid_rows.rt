//! Functions made by hand, as pieces or as lines of Linear, and what is laid out of them.
//!
//! Rows up to a row `end ENTRY` are one function, whose first word has this address.
use crate::functions::put_words_of;
use crate::laid::put_forms;
use crate::{functions, pieces};
use anyhow::{Result, bail};
use lin_ir::Line;
use rv_pieces::Piece;
use std::alloc::Global;
use std::io::Write;
use std::mem;

/// What the functions of a table are.
#[derive(Clone, Copy)]
pub enum Laid {
    /// Lists of pieces (`pieces`).
    Pieces,
    /// Linear functions (`functions`).
    Functions,
}

/// The rows so far of the function that is read.
#[derive(Drop)]
pub(crate) struct LaidRows {
    alloc: Global,
    pieces: Vec<Piece>,
    /// Of a Linear function, once its row `lin` was read.
    slots: Option<u32>,
    lines: Vec<Line>,
}

impl LaidRows {
    /// No row has been read.
    pub(crate) fn new(alloc: Global) -> LaidRows {
        LaidRows {
            alloc,
            pieces: Vec::new(alloc),
            slots: None,
            lines: Vec::new(alloc),
        }
    }

    /// Whether each function has come to its end.
    pub(crate) fn is_done(&self) -> bool {
        self.pieces.is_empty() && self.lines.is_empty()
    }

    /// Puts what is laid out of the function that comes to its end.
    fn end<W: Write>(&mut self, out: &mut W, laid: Laid, entry: u32) -> Result<()> {
        match laid {
            Laid::Pieces => {
                put_forms(self.alloc, out, self.pieces.as_slice(), entry)?;
                self.pieces.clear();
                Ok(())
            }
            Laid::Functions => {
                let Some(slots) = self.slots else {
                    bail!("a function without its slots");
                };
                self.slots = None;
                let lines = mem::replace(&mut self.lines, Vec::new(self.alloc));
                let lin = functions::function(self.alloc, slots, lines);
                put_words_of(self.alloc, out, &lin, entry)
            }
        }
    }

    /// Reads a row of a function.
    fn add(&mut self, laid: Laid, row: &str) -> Result<()> {
        match laid {
            Laid::Pieces => pieces::put_pieces(self.alloc, &mut self.pieces, row),
            Laid::Functions => functions::take(self.alloc, &mut self.lines, row),
        }
    }

    /// Reads how many slots a Linear function has. A list of pieces has no such row.
    fn begin(&mut self, laid: Laid, slots: &str) -> Result<()> {
        match laid {
            Laid::Pieces => bail!("slots of pieces: {slots}"),
            Laid::Functions => {
                self.slots = Some(slots.parse::<u32>()?);
                Ok(())
            }
        }
    }

    /// Reads a row. What is laid out is put.
    pub(crate) fn take<W: Write>(&mut self, out: &mut W, laid: Laid, row: &str) -> Result<()> {
        match row.split_once(' ') {
            Some(("lin", slots)) => self.begin(laid, slots),
            Some(("end", entry)) => self.end(out, laid, entry.parse::<u32>()?),
            _ => self.add(laid, row),
        }
    }
}
