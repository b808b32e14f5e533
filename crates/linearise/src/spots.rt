//! Registers as spots.
ghost use Rattle.std.specs.Prelude.{◌≡◌, IfOk};
ghost use Rattle.lin_ir.specs.Formed.{bare_flow};
ghost use Rattle.linearise_rules.specs.Lowered.{home, spot_of_register, spots, line_of};
ghost use Rattle.linearise.specs.Numbers.{number_of_slot};

use bs_words::Loc;
use lin_ir::{Flow, LinOp, Line, Spot};
use mach_ir::{Instr, Reg, Seq};
use std::alloc::{AllocError, Global};

/// The place of a register, its slot renumbered by the table.
fn home(numbers: &[u32], place: Loc) -> Loc
    ensures { result ≡ home (number_of_slot numbers.now) place }
{
    match place {
        Loc::Unset => Loc::Unset,
        Loc::Machine(register) => Loc::Machine(register),
        Loc::Slot(slot) => match numbers.get(slot as usize) {
            Some(number) => Loc::Slot(*number),
            None => Loc::Slot(0),
        },
    }
}

/// A register as its place and component.
fn spot(numbers: &[u32], reg: &Reg) -> Spot
    ensures { result ≡ spot_of_register (number_of_slot numbers.now) reg.now }
{
    Spot {
        loc: home(numbers, reg.loc),
        comp: reg.comp,
    }
}

/// Registers as spots, in order. The only error is want of memory.
pub fn spots(alloc: Global, numbers: &[u32], regs: &[Reg]) -> Result<Seq<Spot>, AllocError>
    ensures { IfOk result (λ made. made ≡ spots (number_of_slot numbers.now) regs.now) }
{
    let mut made = Vec::with_capacity(alloc, regs.len())?;
    for reg in regs {
        made.push(spot(numbers, reg))?;
    }
    Ok(Seq::from_vec(made))
}

/// A line with the operands and results of an instruction. The only error is want of memory.
pub fn line_of(alloc: Global, numbers: &[u32], op: LinOp, instr: &Instr) -> Result<Line, AllocError>
    ensures { IfOk result (λ line. line ≡ line_of (number_of_slot numbers.now) op instr.now) }
{
    let args = spots(alloc, numbers, instr.args.as_slice())?;
    let results = spots(alloc, numbers, instr.results.as_slice())?;
    Ok(Line { op, args, results })
}

/// A line that neither reads nor writes. It takes no memory.
pub fn bare(alloc: Global, flow: Flow) -> Line
    ensures { result ≡ bare_flow flow }
{
    Line {
        op: LinOp::Flow(flow),
        args: Seq::new(alloc),
        results: Seq::new(alloc),
    }
}
