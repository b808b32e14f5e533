//! The function with its stores and reloads.
ghost use Rattle.std.specs.Prelude.{◌≡◌, ◌+◌, ◌<◌, ◌++◌, ◌^◌, suc, length, IfOk};
ghost use Rattle.mach_ir.specs.Sizes.{number_limit};
ghost use Rattle.spill.specs.Copies.{HaveSlots, CodeHasSlots, slot_register, reloads_at, spills_at, instr_with_copies, spilled_code};

use crate::tables::Tables;
use crate::wanted::is_reloaded;
use bs_words::Loc;
use liveness::Backward;
use mach_ir::{CopyKind, Instr, Reg, Seq};
use std::alloc::{AllocError, Global};

/// The register of the slot.
fn slot_of(free: u32, reg: Reg) -> Reg
    requires { free + reg.number < number_limit }
    ensures { result ≡ slot_register free reg }
{
    Reg {
        number: free + reg.number,
        loc: Loc::Slot(reg.origin),
        ..reg
    }
}

/// The reloads of these operands at the place.
fn reloads_at(
    alloc: Global,
    tables: &Tables,
    place: usize,
    args: &[Reg],
) -> Result<Vec<Instr>, AllocError>
    requires { HaveSlots tables.now.free args.now }
    ensures { IfOk result (λ made. made.items ≡ reloads_at tables.now place args.now) }
{
    let mut made = Vec::new(alloc);
    for reg in args {
        if is_reloaded(&tables.lost, place, reg) {
            let slot = slot_of(tables.free, *reg);
            made.push(Instr::copy(alloc, CopyKind::Reload, slot, *reg)?)?;
        }
    }
    Ok(made)
}

/// The stores of these results, which are written before the place.
fn spills_at(
    alloc: Global,
    tables: &Tables,
    place: usize,
    results: &[Reg],
) -> Result<Vec<Instr>, AllocError>
    requires { HaveSlots tables.now.free results.now }
    ensures { IfOk result (λ made. made.items ≡ spills_at tables.now place results.now) }
{
    let mut made = Vec::new(alloc);
    for reg in results {
        if tables.wanted.contains(place, reg.number) {
            let slot = slot_of(tables.free, *reg);
            made.push(Instr::copy(alloc, CopyKind::Spill, *reg, slot)?)?;
        }
    }
    Ok(made)
}

/// Puts the instruction at the place before the others, with its reloads and stores.
fn push_instr(
    alloc: Global,
    tables: &Tables,
    place: usize,
    instr: Instr,
    made: &mut Backward<Instr>,
) -> Result<(), AllocError>
    requires fits { suc place < 2 ^ 64 }
    requires args { HaveSlots tables.now.free instr.args }
    requires results { HaveSlots tables.now.free instr.results }
    ensures { IfOk result (λ _. made.new ≡ instr_with_copies tables.now place instr ++ made.old) }
{
    let reloads = reloads_at(alloc, tables, place, instr.args.as_slice())?;
    let spills = spills_at(alloc, tables, place + 1, instr.results.as_slice())?;
    made.push_all(spills)?;
    made.push(instr)?;
    made.push_all(reloads)
}

/// The code with its stores and reloads. The only error is want of memory.
pub fn spill_code(
    alloc: Global,
    tables: &Tables,
    code: Seq<Instr>,
) -> Result<Seq<Instr>, AllocError>
    requires { CodeHasSlots tables.now.free code }
    ensures { IfOk result (λ made. made ≡ spilled_code tables.now (length code) code) }
{
    let mut items = code.into_vec();
    let mut made = Backward::with_capacity(alloc, items.len())?;
    while let Some(instr) = items.pop() {
        let place = items.len();
        push_instr(alloc, tables, place, instr, &mut made)?;
    }
    Ok(Seq::from_vec(made.into_vec()))
}
