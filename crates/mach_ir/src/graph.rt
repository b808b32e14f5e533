//! What is live in a function, its graph of interference, and places for its registers, as tables.

use crate::reg::Reg;
use crate::seq::Seq;
use bs_words::Loc;
use dataflow::Rows;

/// The numbers of the registers that are live before each instruction of a function.
#[derive(Drop)]
pub struct LiveMap {
    /// A set for each instruction, in their order, and one after the last.
    pub before: Rows,
}

/// A register, and what colouring asks of it.
#[derive(Clone, Drop)]
pub struct Node {
    /// The register.
    pub reg: Reg,
    /// The numbers of the registers that the graph joins it with, rising.
    pub neighbours: Seq<u32>,
    /// The numbers of the registers that a move takes it from or to: one for each move (two where it moves it to itself), in the order of
    /// the text. They had better be at one place, so that the move has no words.
    pub moves: Seq<u32>,
    /// How often the code reads or writes it: what a slot would cost.
    pub uses: u32,
}

/// The registers of a function, and which of them must be apart: one is written while the other
/// is live.
#[derive(Clone, Drop)]
pub struct Graph {
    /// By rising number of their registers.
    pub nodes: Seq<Node>,
}

/// A place for each register of a function.
#[derive(Clone, Drop)]
pub struct Colours {
    /// By the number of the register. A number that is no register's is `Unset`.
    pub places: Seq<Loc>,
}
