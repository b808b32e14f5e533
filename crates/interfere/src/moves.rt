//! Moves between registers.
ghost use Rattle.std.specs.Prelude.{◌≡◌};
ghost use Rattle.interfere.specs.Moves.{is_move_from_to, move_between, move_of};

use mach_ir::{Instr, Reg};

/// A move: the numbers of the register that it reads and of the one that it writes.
#[derive(Clone, Copy)]
pub struct Move {
    /// The number of the register that is read.
    pub from: u32,
    /// The number of the register that is written.
    pub to: u32,
}

/// The move from the one operand to the one result, if that is what these are.
fn move_between(args: &[Reg], results: &[Reg]) -> Option<Move>
    ensures { result ≡ move_between args.now results.now }
{
    if args.len() != 1 || results.len() != 1 {
        return None;
    }
    Some(Move {
        from: args[0].number,
        to: results[0].number,
    })
}

/// The move that the instruction is, if it is one.
pub fn move_of(instr: &Instr) -> Option<Move>
    ensures { result ≡ move_of instr.now }
{
    if instr.op.is_move() {
        move_between(instr.args.as_slice(), instr.results.as_slice())
    } else {
        None
    }
}

/// Whether it is a move from the one register to the other.
pub fn is_from_to(moved: Option<Move>, from: u32, to: u32) -> bool
    ensures { result ≡ is_move_from_to moved from to }
{
    match moved {
        None => false,
        Some(moved) => moved.from == from && moved.to == to,
    }
}
