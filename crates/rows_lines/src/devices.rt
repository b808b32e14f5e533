//! What a command reads and writes.
ghost use Rattle.std.specs.Prelude.{◌≤◌};

use crate::Answer;
use crate::sticking::Sticking;
use bs_io::{MemSink, MemSource};
use bs_words::List;
use std::alloc::{AllocError, Global};

/// The most bytes that are kept of out, and of err.
const KEPT: usize = 1 << 25;

const LINE: usize = 1 << 12;

/// The most bytes of one read or write, where a line does not say.
const PIECE: usize = 1 << 16;

/// Which writes of a sink go wrong, by their numbers, counted from 0.
#[derive(Drop)]
pub(crate) struct Faults {
    /// Those that fail.
    pub fails: Vec<u64>,
    /// Those that take nothing.
    pub sticks: Vec<u64>,
}

impl Faults {
    /// No write goes wrong.
    pub fn new(alloc: Global) -> Faults {
        Faults {
            fails: Vec::new(alloc),
            sticks: Vec::new(alloc),
        }
    }

    /// A sink with these faults.
    fn sink(self, alloc: Global, room: usize, piece: usize) -> Result<Sticking, AllocError>
        requires { 1 ≤ piece }
    {
        let Faults { fails, sticks } = self;
        let below = MemSink::new(alloc, room, List::from_vec(fails), piece)?;
        Ok(Sticking::new(below, sticks))
    }
}

/// What a line says of the reads and the writes of its command.
#[derive(Drop)]
pub(crate) struct Plan {
    /// The numbers of the reads that fail, counted from 0.
    pub read_fails: Vec<u64>,
    /// The writes to out that fail or stick.
    pub out: Faults,
    /// The writes to err that fail or stick.
    pub err: Faults,
    /// The most bytes of one read or write; 0 where the line does not say.
    pub piece: usize,
}

impl Plan {
    /// The line says nothing.
    pub fn new(alloc: Global) -> Plan {
        Plan {
            read_fails: Vec::new(alloc),
            out: Faults::new(alloc),
            err: Faults::new(alloc),
            piece: 0,
        }
    }
}

/// What a command is handed.
#[derive(Drop)]
pub(crate) struct Devices {
    /// What it reads.
    pub source: MemSource,
    /// What it writes its result to.
    pub out: Sticking,
    /// What it writes its line of an error to.
    pub err: Sticking,
}

impl Devices {
    /// Those of this plan, to read these bytes. The only error is want of memory.
    pub fn new(alloc: Global, plan: Plan, input: Vec<u8>) -> Result<Devices, AllocError> {
        let Plan {
            read_fails,
            out,
            err,
            piece,
        } = plan;
        let piece = if piece == 0 { PIECE } else { piece };
        let source = MemSource::new(List::from_vec(input), List::from_vec(read_fails), piece);
        let out = out.sink(alloc, KEPT, piece)?;
        let err = err.sink(alloc, LINE, piece)?;
        Ok(Devices { source, out, err })
    }

    /// The answer of a command that ended with this status. The only error is want of memory.
    pub fn answer(&self, alloc: Global, status: u8) -> Result<Answer, AllocError> {
        let out = self.out.bytes().to_vec(alloc)?;
        let err = self.err.bytes().to_vec(alloc)?;
        Ok(Answer { status, out, err })
    }
}
