//! Registers in rows: operands, parameters, and the seats that the convention of calls gives them.
ghost use Rattle.std.specs.Prelude.{◌≡◌, ◌+◌, ◌<◌, length, slice_index_or, IfOk};
ghost use Rattle.bs_words.specs.declared.types.Loc.TheVariants as loc;
ghost use Rattle.cmm_tree.specs.Rows.{expressions_of};
ghost use Rattle.cmm_types.specs.Lists.{AreAnnotated};
ghost use Rattle.cmm_meaning.specs.Evaluation.{comps_of_arguments};
ghost use Rattle.mach_ir.specs.Placed.{colour_numbers};
ghost use Rattle.mach_ir.specs.Seats.{argument_locations};
ghost use Rattle.selection_rules.specs.Select.{seat, seats, result_seat, regs_of, colour_regs};
ghost use Rattle.selection_scope.specs.Room.{most_numbers};
ghost use Rattle.selection_scope.specs.Scoping.{scoped_names};

use crate::place::fresh;
use crate::row::Regs;
use crate::scope::Scope;
use bs_words::{Comp, Loc, Ret};
use cmm_tree::Expr;
use cmm_types::comp_of_argument;
use mach_ir::{Reg, Seq};
use rv_isa::{ARGUMENT_REGISTERS, COLOURS};
use std::alloc::{AllocError, Global};

/// The place of the argument at a position. Past the last it is unset.
fn argument_place(position: u32) -> Loc
    ensures { result ≡ slice_index_or argument_locations position loc.Unset }
{
    match ARGUMENT_REGISTERS.get(position as usize) {
        Some(register) => Loc::Machine(*register),
        None => Loc::Unset,
    }
}

/// The register of this number at the place of an argument. The first place is also that of a result and of a raised
/// value.
pub fn seat(position: u32, number: u32, comp: Comp) -> Reg
    ensures { result ≡ seat position number comp }
{
    Reg {
        number,
        comp,
        loc: argument_place(position),
        origin: number,
    }
}

/// The seats of values in these registers, with the numbers from this one on.
/// The only error is want of memory.
pub fn seats(alloc: Global, number: u32, regs: &Regs) -> Result<Regs, AllocError>
    requires { number + length regs.now < most_numbers }
    ensures { IfOk result (λ made. made ≡ seats 0 number regs.now) }
{
    let mut made = Regs::new(alloc);
    let mut position = 0;
    let mut next = number;
    let mut rest = regs.as_slice();
    while let [first, others @ ..] = rest {
        made.push(seat(position, next, first.reg.comp))?;
        position += 1;
        next += 1;
        rest = others;
    }
    Ok(made)
}

/// The seat of what a function gives, if it gives anything. The only error is want of memory.
pub fn result_seat(alloc: Global, number: u32, given: Ret) -> Result<Regs, AllocError>
    ensures { IfOk result (λ made. made ≡ result_seat number given) }
{
    let mut made = Regs::new(alloc);
    match given {
        Ret::Unit => {}
        Ret::Comp(comp) => made.push(seat(0, number, comp))?,
    }
    Ok(made)
}

/// The registers of a row of operands, with the numbers from this one on.
/// The only error is want of memory.
pub fn regs_of(scope: &Scope, number: u32, exprs: &[Expr]) -> Result<Regs, AllocError>
    requires typed { AreAnnotated (scoped_names scope.now) exprs.now }
    requires room { number + length exprs.now < most_numbers }
    ensures { IfOk result (λ made. made ≡ regs_of scope.now.names number (expressions_of exprs.now)) }
{
    let mut made = Regs::new(scope.alloc());
    let mut next = number;
    let mut rest = exprs;
    while let [expr, others @ ..] = rest {
        made.push(fresh(next, expr.ty))?;
        next += 1;
        rest = others;
    }
    Ok(made)
}

/// The components of the arguments of an external call. The only error is want of memory.
pub fn comps_of_arguments(scope: &Scope, exprs: &[Expr]) -> Result<Seq<Comp>, AllocError>
    requires { AreAnnotated (scoped_names scope.now) exprs.now }
    ensures { IfOk result (λ comps. comps ≡ comps_of_arguments (scoped_names scope.now)
        (expressions_of exprs.now)) }
{
    let mut comps = Vec::new(scope.alloc());
    let mut rest = exprs;
    while let [expr, others @ ..] = rest {
        comps.push(comp_of_argument(expr.ty))?;
        rest = others;
    }
    Ok(Seq::from_vec(comps))
}

/// For each colour a register that is there; their numbers are the first.
/// The only error is want of memory.
pub fn colour_regs(alloc: Global) -> Result<Seq<Reg>, AllocError>
    ensures { IfOk result (λ regs. regs ≡ colour_regs 0 colour_numbers) }
{
    let mut regs = Vec::new(alloc);
    let mut next = 0;
    let mut rest: &[u8] = &COLOURS;
    while let [colour, others @ ..] = rest {
        regs.push(Reg {
            number: next,
            comp: Comp::Int,
            loc: Loc::Machine(*colour),
            origin: next,
        })?;
        next += 1;
        rest = others;
    }
    Ok(Seq::from_vec(regs))
}
