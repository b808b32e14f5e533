//! Lines left out.
ghost use Rattle.std.specs.Prelude.{◌≡◌, ◌↔◌, ◌++◌, ◌∷◌, List, All, false, length, IfOk, IsTrue};
ghost use Rattle.lin_ir.specs.declared.lin.Line.{Line};
ghost use Rattle.lin_tidy_rules.specs.Leaving.{without_lines, with_code};
ghost use Rattle.lin_unused.specs.Flags.{NoMoveGoes, is_flagged_unused, unflagged_lines, unless_gone};
ghost use Rattle.lin_unused.specs.Forms.{IsNoSelfMove};

use crate::forms::is_no_self_move;
use lin_ir::{Lin, Line};
use mach_ir::Seq;
use std::alloc::{AllocError, Global};

/// Whether no flag is set.
pub fn none_set(flags: &[bool]) -> bool
    ensures { IsTrue result ↔ All (λ flag. flag ≡ false) flags.now }
{
    flags.iter().all(|flag| !*flag)
}

fn stays_or_moves_none(goes: bool, line: &Line) -> bool
    ensures { IsTrue result → IsTrue goes → IsNoSelfMove line.now }
{
    if goes { is_no_self_move(line) } else { true }
}

/// Whether no line whose flag is set moves a location to itself. There is a flag for each line.
pub fn no_move_goes(code: &[Line], flags: &[bool]) -> bool
    requires { length flags.now ≡ length code.now }
    ensures { IsTrue result → NoMoveGoes flags.now code.now }
{
    for place in 0..code.len() {
        if !stays_or_moves_none(flags[place], &code[place]) {
            return false;
        }
    }
    true
}

/// Adds the line, unless it goes.
fn push_unless(left: &mut Vec<Line>, goes: bool, line: Line) -> Result<(), AllocError>
    ensures { IfOk result (λ _. left.new.items ≡ left.old.items ++ unless_gone goes line) }
{
    if !goes {
        left.push(line)?;
    }
    Ok(())
}

/// Adds the line, unless the first flag is set. The other flags.
fn push_next<'a>(
    left: &mut Vec<Line>,
    flags: &'a [bool],
    line: Line,
) -> Result<&'a [bool], AllocError>
    ensures { IfOk result (λ others. (rest : List Line) → left.new.items ++ unflagged_lines others.now rest ≡
        left.old.items ++ unflagged_lines flags.entry.now (line ∷ rest)) }
{
    match flags.split_first() {
        None => {
            push_unless(left, false, line)?;
            Ok(flags)
        }
        Some((goes, others)) => {
            push_unless(left, *goes, line)?;
            Ok(others)
        }
    }
}

/// The lines whose flags are not set, in order.
fn unset_lines(alloc: Global, code: Seq<Line>, flags: &[bool]) -> Result<Seq<Line>, AllocError>
    ensures { IfOk result (λ left. left ≡ unflagged_lines flags.now code) }
{
    let mut left = Vec::with_capacity(alloc, code.len())?;
    let mut others = flags;
    for line in code.into_vec() {
        others = push_next(&mut left, others, line)?;
    }
    Ok(Seq::from_vec(left))
}

/// The function without the lines whose flags are set. There is a flag for each line. The only error is
/// want of memory.
pub fn leave_out(alloc: Global, lin: Lin, flags: &[bool]) -> Result<Lin, AllocError>
    requires { length flags.now ≡ length lin.code }
    ensures { IfOk result (λ left. left ≡ with_code lin (without_lines (is_flagged_unused flags.now) lin.code)) }
{
    let Lin {
        name,
        params,
        result,
        slots,
        code,
    } = lin;
    let code = unset_lines(alloc, code, flags)?;
    Ok(Lin {
        name,
        params,
        result,
        slots,
        code,
    })
}
