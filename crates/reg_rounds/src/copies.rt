//! The same function again.
ghost use Rattle.std.specs.Prelude.{◌≡◌, IfOk};

use mach_ir::{Instr, Mach, MachOp, Seq};
use std::alloc::{AllocError, Global};

fn copy_op(op: &MachOp) -> Result<MachOp, AllocError>
    ensures { IfOk result (λ copy. copy ≡ op.now) }
{
    op.clone()
}

fn copy_instr(instr: &Instr) -> Result<Instr, AllocError>
    ensures { IfOk result (λ copy. copy ≡ instr.now) }
{
    let op = copy_op(&instr.op)?;
    let args = instr.args.clone()?;
    let results = instr.results.clone()?;
    Ok(Instr { op, args, results })
}

fn copy_code(alloc: Global, code: &[Instr]) -> Result<Seq<Instr>, AllocError>
    ensures { IfOk result (λ copy. copy ≡ code.now) }
{
    let mut copy = Vec::with_capacity(alloc, code.len())?;
    for instr in code {
        copy.push(copy_instr(instr)?)?;
    }
    Ok(Seq::from_vec(copy))
}

/// The same function.
///
/// The time is linear in the function. The only error is want of memory.
pub(crate) fn copy(alloc: Global, mach: &Mach) -> Result<Mach, AllocError>
    ensures { IfOk result (λ copy. copy ≡ mach.now) }
{
    let name = mach.name.clone()?;
    let params = mach.params.clone()?;
    let colours = mach.colours.clone()?;
    let code = copy_code(alloc, mach.code.as_slice())?;
    Ok(Mach {
        name,
        params,
        result: mach.result,
        labels: mach.labels,
        colours,
        code,
    })
}
