//! The function in which every operand and result is a val: what is live there as val is live in the
//! function as anything.
ghost use Rattle.std.specs.Prelude.{◌≡◌, IfOk, map};
ghost use Rattle.lin_tidy_rules.specs.Vals.{as_val, line_as_vals, as_vals};

use bs_words::Comp;
use lin_ir::{Lin, Line, Spot};
use mach_ir::Seq;
use std::alloc::{AllocError, Global};

fn spots_as_vals(alloc: Global, spots: &[Spot]) -> Result<Seq<Spot>, AllocError>
    ensures { IfOk result (λ made. made ≡ map as_val spots.now) }
{
    let mut made = Vec::with_capacity(alloc, spots.len())?;
    for spot in spots {
        made.push(Spot {
            loc: spot.loc,
            comp: Comp::Val,
        })?;
    }
    Ok(Seq::from_vec(made))
}

fn line_as_vals(alloc: Global, line: &Line) -> Result<Line, AllocError>
    ensures { IfOk result (λ made. made ≡ line_as_vals line.now) }
{
    let op = line.op.clone()?;
    let args = spots_as_vals(alloc, line.args.as_slice())?;
    let results = spots_as_vals(alloc, line.results.as_slice())?;
    Ok(Line { op, args, results })
}

fn code_as_vals(alloc: Global, code: &[Line]) -> Result<Seq<Line>, AllocError>
    ensures { IfOk result (λ made. made ≡ map line_as_vals code.now) }
{
    let mut made = Vec::with_capacity(alloc, code.len())?;
    for line in code {
        made.push(line_as_vals(alloc, line)?)?;
    }
    Ok(Seq::from_vec(made))
}

/// The function with every operand and result as val. The only error is want of memory.
pub fn as_vals(alloc: Global, lin: &Lin) -> Result<Lin, AllocError>
    ensures { IfOk result (λ made. made ≡ as_vals lin.now) }
{
    let name = lin.name.clone()?;
    let params = lin.params.clone()?;
    let code = code_as_vals(alloc, lin.code.as_slice())?;
    Ok(Lin {
        name,
        params,
        result: lin.result,
        slots: lin.slots,
        code,
    })
}
