//! The function with its moves.
ghost use Rattle.std.specs.Prelude.{◌≡◌, ◌++◌, IfOk};
ghost use Rattle.sink_rules.specs.Sunk.{to_itself};
ghost use Rattle.sink.specs.Moves.{moves_before, instr_after_moves, sunk_code};

use crate::chosen::Move;
use crate::runs::begins_at;
use liveness::Backward;
use mach_ir::{CopyKind, Instr, Reg, Seq};
use std::alloc::{AllocError, Global};

fn to_itself(alloc: Global, reg: Reg) -> Result<Instr, AllocError>
    ensures { IfOk result (λ instr. instr ≡ to_itself reg) }
{
    let made = Instr::copy(alloc, CopyKind::Move, reg, reg)?;
    Ok(made)
}

/// The moves before the place.
fn moves_before(alloc: Global, moves: &[Move], place: usize) -> Result<Vec<Instr>, AllocError>
    ensures { IfOk result (λ made. made.items ≡ moves_before moves.now place) }
{
    let mut made = Vec::new(alloc);
    for moved in moves {
        if moved.place == place {
            made.push(to_itself(alloc, moved.reg)?)?;
        }
    }
    Ok(made)
}

/// Puts the instruction at the place before the others, with its moves: there are some only where a
/// straight run may begin.
fn push_instr(
    alloc: Global,
    moves: &[Move],
    begins: bool,
    place: usize,
    instr: Instr,
    made: &mut Backward<Instr>,
) -> Result<(), AllocError>
    ensures { IfOk result (λ _. made.new ≡ instr_after_moves moves.now begins place instr ++ made.old) }
{
    made.push(instr)?;
    if begins {
        let before = moves_before(alloc, moves, place)?;
        made.push_all(before)?;
    }
    Ok(())
}

/// The code with its moves. The only error is want of memory.
pub fn move_code(alloc: Global, moves: &[Move], code: Seq<Instr>) -> Result<Seq<Instr>, AllocError>
    ensures { IfOk result (λ made. made ≡ sunk_code moves.now code code) }
{
    let mut items = code.into_vec();
    let mut made = Backward::with_capacity(alloc, items.len())?;
    while let Some(instr) = items.pop() {
        let place = items.len();
        let begins = begins_at(&items, place);
        push_instr(alloc, moves, begins, place, instr, &mut made)?;
    }
    Ok(Seq::from_vec(made.into_vec()))
}
