//! Dead code, dropped.
ghost use Rattle.std.specs.Prelude.{◌≡◌, ◌∷◌, ◌++◌, [], cond, IfOk};
ghost use Rattle.mach_ir.specs.Sizes.{IsCountable};
ghost use Rattle.mach_laws.specs.Expand.{expand};
ghost use Rattle.deadcode_rules.specs.Dropped.{unless_dropped, IsDropped};
ghost use Rattle.cse_deadcode.specs.Uses.{is_one_used, is_dead_instruction, drops_by};

use crate::uses::used;
use crate::visits::may_go;
use dataflow::Rows;
use liveness::Backward;
use mach_ir::{Instr, Mach, Reg, Seq};
use std::alloc::{AllocError, Global};

/// Whether one of the registers is used at the place.
fn is_one_used(rows: &Rows, place: usize, regs: &[Reg]) -> bool
    ensures { result ≡ is_one_used rows.now.rows.items place regs.now }
{
    regs.iter().any(|reg| rows.contains(place, reg.number))
}

/// Whether the instruction goes, where the place after it is this.
fn is_dead(rows: &Rows, after: usize, instr: &Instr) -> bool
    ensures { result ≡ is_dead_instruction rows.now.rows.items after instr.now }
{
    may_go(&instr.op) && !is_one_used(rows, after, instr.results.as_slice())
}

/// Puts the instruction before the others, unless it goes.
fn keep(
    left: &mut Backward<Instr>,
    rows: &Rows,
    after: usize,
    instr: Instr,
) -> Result<(), AllocError>
    ensures { IfOk result (λ _.
        left.new ≡ cond (is_dead_instruction rows.now.rows.items after instr) [] (instr ∷ []) ++ left.old) }
{
    if !is_dead(rows, after, &instr) {
        left.push(instr)?;
    }
    Ok(())
}

/// The code that is left.
fn drop_code(alloc: Global, rows: &Rows, code: Seq<Instr>) -> Result<Seq<Instr>, AllocError>
    ensures { IfOk result (λ left.
        left ≡ expand (unless_dropped (drops_by rows.now.rows.items code)) code) }
{
    let mut items = code.into_vec();
    let mut left = Backward::new(alloc);
    while let Some(instr) = items.pop() {
        let after = items.len() + 1;
        keep(&mut left, rows, after, instr)?;
    }
    Ok(Seq::from_vec(left.into_vec()))
}

/// The function without its dead instructions: the constants, symbols, moves and integer operators
/// whose results nothing uses, whatever only they use included. Spills and reloads stay, and so do
/// loads.
///
/// It solves what is used itself: what is live would let stay what only dead instructions read. The
/// only error is want of memory.
pub fn drop_dead(alloc: Global, mach: Mach) -> Result<Mach, AllocError>
    requires countable { IsCountable mach }
    ensures { IfOk result (λ made. IsDropped mach made) }
{
    let rows = used(alloc, &mach)?;
    let Mach {
        name,
        params,
        result,
        labels,
        colours,
        code,
    } = mach;
    let code = drop_code(alloc, &rows, code)?;
    Ok(Mach {
        name,
        params,
        result,
        labels,
        colours,
        code,
    })
}
