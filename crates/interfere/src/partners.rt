//! The moves that take each register from others or to them.
ghost use Rattle.std.specs.Prelude.{◌≡◌, ◌++◌, ◌<◌, ℕ, [], length, IfOk};
ghost use Rattle.mach_ir.specs.Graph.{partner, moves_of};
ghost use Rattle.mach_ir.specs.Walks.{InCode};
ghost use Rattle.mach_ir.specs.declared.reg.Reg.{Reg};
ghost use Rattle.interfere.specs.Moves.{partners_of};
ghost use Rattle.interfere.specs.Partners.{partners_in, AreSmall};

use crate::moves::{Move, move_of};
use mach_ir::Instr;
use std::alloc::{AllocError, Global};

/// The other registers of a register's moves, by number: one for each move.
#[derive(Drop)]
pub struct Partners {
    /// Their numbers, in the order of the text.
    pub numbers: Vec<u32>,
}

fn no_partners(alloc: Global, size: u32) -> Result<Vec<Partners>, AllocError>
    ensures len { IfOk result (λ table. length table.items ≡ size) }
    ensures none { IfOk result (λ table. (n : ℕ) → partners_in table.items n ≡ []) }
{
    let mut table = Vec::with_capacity(alloc, size as usize)?;
    for _number in 0..size {
        table.push(Partners {
            numbers: Vec::new(alloc),
        })?;
    }
    Ok(table)
}

fn add_partner(table: &mut Vec<Partners>, number: u32, other: u32) -> Result<(), AllocError>
    requires { number < length table.old.items }
    ensures len { IfOk result (λ _. length table.new.items ≡ length table.old.items) }
    ensures more { IfOk result (λ _. (n : ℕ) →
        partners_in table.new.items n ≡ partners_in table.old.items n ++ partner n number other) }
{
    let partners = &mut table[number as usize];
    partners.numbers.push(other)?;
    Ok(())
}

/// Enters a move at both of its registers.
fn add_move(table: &mut Vec<Partners>, moved: Option<Move>) -> Result<(), AllocError>
    requires { AreSmall (length table.old.items) moved }
    ensures len { IfOk result (λ _. length table.new.items ≡ length table.old.items) }
    ensures more { IfOk result (λ _. (n : ℕ) →
        partners_in table.new.items n ≡ partners_in table.old.items n ++ partners_of n moved) }
{
    match moved {
        None => Ok(()),
        Some(moved) => {
            add_partner(table, moved.from, moved.to)?;
            add_partner(table, moved.to, moved.from)
        }
    }
}

/// For each number below `size` the other registers of the moves in the code that take it from one or to
/// one, in the order of the text. The only error is want of memory.
pub fn partners_of(alloc: Global, code: &[Instr], size: u32) -> Result<Vec<Partners>, AllocError>
    requires { (r : Reg) → InCode r code.now → r.number < size }
    ensures len { IfOk result (λ table. length table.items ≡ size) }
    ensures moves { IfOk result (λ table. (n : ℕ) →
        partners_in table.items n ≡ moves_of n code.now) }
{
    let mut table = no_partners(alloc, size)?;
    for instr in code {
        add_move(&mut table, move_of(instr))?;
    }
    Ok(table)
}
