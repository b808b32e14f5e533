//! Registers put where a colouring has them.
ghost use Rattle.std.specs.Prelude.{◌≡◌, IfOk};
ghost use Rattle.mach_ir.specs.Graph.{coloured_location};
ghost use Rattle.colouring_rules.specs.Places.{located_register, all_placed, placed_instr, placed_code, with_places};
ghost use Rattle.reload_rules.specs.Reloaded.{slot_or};
ghost use Rattle.reload.specs.Putting.{placing};

use bs_words::Loc;
use mach_ir::{Colours, Instr, Mach, Reg, Seq};
use std::alloc::{AllocError, Global};

/// Which registers are put at their places.
#[derive(Clone, Copy)]
pub(crate) enum Putting {
    /// Each of them.
    Everywhere,
    /// Those that the colouring puts into slots. The others stay as they are.
    IntoSlots,
}

/// The place of the register with this number.
fn place_of(colours: &Colours, number: u32) -> Loc
    ensures { result ≡ coloured_location colours.now number }
{
    colours
        .places
        .get(number as usize)
        .copied()
        .unwrap_or(Loc::Unset)
}

/// A slot, or else this place.
fn slot_or(own: Loc, place: Loc) -> Loc
    ensures { result ≡ slot_or own place }
{
    match place {
        Loc::Slot(slot) => Loc::Slot(slot),
        Loc::Machine(_) => own,
        Loc::Unset => own,
    }
}

/// The register at its place.
fn put(putting: Putting, colours: &Colours, reg: Reg) -> Reg
    ensures { result ≡ located_register (placing putting (coloured_location colours.now)) reg }
{
    let place = place_of(colours, reg.number);
    let loc = match putting {
        Putting::Everywhere => place,
        Putting::IntoSlots => slot_or(reg.loc, place),
    };
    Reg { loc, ..reg }
}

/// The same of each of these registers.
fn put_each(putting: Putting, colours: &Colours, regs: &mut [Reg])
    ensures { regs.new ≡ all_placed (placing putting (coloured_location colours.now)) regs.old }
{
    for reg in regs.iter_mut() {
        *reg = put(putting, colours, *reg);
    }
}

/// The same of registers, in their order. It takes no memory.
fn put_registers(putting: Putting, colours: &Colours, regs: Seq<Reg>) -> Seq<Reg>
    ensures { result ≡ all_placed (placing putting (coloured_location colours.now)) regs }
{
    let mut items = regs.into_vec();
    put_each(putting, colours, items.as_mut_slice());
    Seq::from_vec(items)
}

/// The same of the operands and results of an instruction. It takes no memory.
fn put_instr(putting: Putting, colours: &Colours, instr: Instr) -> Instr
    ensures { result ≡ placed_instr (placing putting (coloured_location colours.now)) instr }
{
    let Instr { op, args, results } = instr;
    Instr {
        op,
        args: put_registers(putting, colours, args),
        results: put_registers(putting, colours, results),
    }
}

/// The same of each instruction of a code.
fn put_code(
    alloc: Global,
    putting: Putting,
    colours: &Colours,
    code: Seq<Instr>,
) -> Result<Seq<Instr>, AllocError>
    ensures { IfOk result (λ done.
        done ≡ placed_code (placing putting (coloured_location colours.now)) code) }
{
    let mut done = Vec::with_capacity(alloc, code.len())?;
    for instr in code.into_vec() {
        done.push(put_instr(putting, colours, instr))?;
    }
    Ok(Seq::from_vec(done))
}

/// The function with its registers at their places.
///
/// The time is linear in the function. The only error is want of memory.
pub(crate) fn put_all(
    alloc: Global,
    putting: Putting,
    colours: &Colours,
    mach: Mach,
) -> Result<Mach, AllocError>
    ensures { IfOk result (λ done.
        done ≡ with_places (placing putting (coloured_location colours.now)) mach) }
{
    let Mach {
        name,
        params,
        result,
        labels,
        colours: at_colours,
        code,
    } = mach;
    let code = put_code(alloc, putting, colours, code)?;
    Ok(Mach {
        name,
        params: put_registers(putting, colours, params),
        result,
        labels,
        colours: put_registers(putting, colours, at_colours),
        code,
    })
}
