//! The lines of one instruction.
ghost use Rattle.std.specs.Prelude.{◌≡◌, ◌∷◌, IfOk};
ghost use Rattle.lin_ir.specs.Formed.{bare_flow};
ghost use Rattle.lin_ir.specs.declared.lin.Flow.TheVariants as flow;
ghost use Rattle.lin_ir.specs.declared.lin.LinOp.TheVariants as lin;
ghost use Rattle.linearise_rules.specs.Lowered.{same_spot, is_idle, line_of, pops, lines_of_mark, lowered_one};
ghost use Rattle.linearise.specs.Numbers.{number_of_slot};

use crate::backward::Backward;
use crate::copies::copy_op;
use crate::spots::{bare, line_of};
use crate::tests::opposite_test;
use lin_ir::{Flow, LinOp, same_loc};
use mach_ir::{Instr, Label, MachOp, Mark, Op, Pure, Reg, same_comp};
use std::alloc::{AllocError, Global};

/// Whether both are one register each, at one place and of one component.
fn same_spot(args: &[Reg], results: &[Reg]) -> bool
    ensures { result ≡ same_spot args.now results.now }
{
    if args.len() != 1 {
        return false;
    }
    if results.len() != 1 {
        return false;
    }
    let from = args[0];
    let to = results[0];
    let loc = same_loc(from.loc, to.loc);
    let comp = same_comp(from.comp, to.comp);
    loc && comp
}

/// Whether the instruction is a copy from a place to itself, of one component.
fn is_idle(instr: &Instr) -> bool
    ensures { result ≡ is_idle instr.now.op instr.now.args instr.now.results }
{
    match &instr.op {
        MachOp::Op(Op::Pure(Pure::Copy(_kind))) => {
            same_spot(instr.args.as_slice(), instr.results.as_slice())
        }
        MachOp::Op(Op::Pure(Pure::Constant(_word))) => false,
        MachOp::Op(Op::Pure(Pure::Symbol(_name))) => false,
        MachOp::Op(Op::Pure(Pure::Operator(_operator, _right))) => false,
        MachOp::Op(Op::Access(_access)) => false,
        MachOp::Op(Op::Calling(_calling)) => false,
        MachOp::Op(Op::Leaving(_leaving)) => false,
        MachOp::Mark(_mark) => false,
    }
}

/// Puts so many pops of traps before the lines.
fn push_pops(alloc: Global, count: u32, lines: &mut Backward) -> Result<(), AllocError>
    ensures { IfOk result (λ _. lines.new ≡ pops (λ k. k) count lines.old) }
{
    for _pop in 0..count {
        lines.push(bare(alloc, Flow::PopTrap))?;
    }
    Ok(())
}

/// Puts a jump, and the label that comes after it, before the lines.
fn push_jump(
    alloc: Global,
    end: Label,
    label: Label,
    lines: &mut Backward,
) -> Result<(), AllocError>
    ensures { IfOk result (λ _. lines.new ≡
        bare_flow (flow.Jump end) ∷ bare_flow (flow.Label label) ∷ lines.old) }
{
    lines.push(bare(alloc, Flow::Label(label)))?;
    lines.push(bare(alloc, Flow::Jump(end)))
}

/// Puts the lines of a mark before the others.
fn push_mark(
    alloc: Global,
    numbers: &[u32],
    mark: &Mark,
    instr: &Instr,
    lines: &mut Backward,
) -> Result<(), AllocError>
    ensures { IfOk result (λ _. lines.new ≡
        lines_of_mark (number_of_slot numbers.now) mark.now instr.now lines.old) }
{
    match mark {
        Mark::Exit { label, tries } => {
            lines.push(bare(alloc, Flow::Exit(*label)))?;
            push_pops(alloc, *tries, lines)
        }
        Mark::If { test, otherwise } => {
            let branch = Flow::Branch {
                test: opposite_test(*test),
                label: *otherwise,
            };
            let line = line_of(alloc, numbers, LinOp::Flow(branch), instr)?;
            lines.push(line)
        }
        Mark::Else { label, end } => push_jump(alloc, *end, *label, lines),
        Mark::Switch(labels) => {
            let switch = Flow::Switch(labels.clone()?);
            let line = line_of(alloc, numbers, LinOp::Flow(switch), instr)?;
            lines.push(line)
        }
        Mark::Case {
            indexes: _,
            label,
            end,
        } => push_jump(alloc, *end, *label, lines),
        Mark::Catch => Ok(()),
        Mark::With { label, end } => push_jump(alloc, *end, *label, lines),
        Mark::Try { handler } => {
            let line = line_of(alloc, numbers, LinOp::Flow(Flow::PushTrap(*handler)), instr)?;
            lines.push(line)
        }
        Mark::Leave { handler: _, end } => {
            lines.push(bare(alloc, Flow::Jump(*end)))?;
            lines.push(bare(alloc, Flow::PopTrap))
        }
        Mark::Handler { label } => {
            let line = line_of(alloc, numbers, LinOp::Flow(Flow::EnterTrap), instr)?;
            lines.push(line)?;
            lines.push(bare(alloc, Flow::Label(*label)))
        }
        Mark::End { label } => lines.push(bare(alloc, Flow::Label(*label))),
    }
}

/// Puts the line of an operation before the others.
fn push_op(
    alloc: Global,
    numbers: &[u32],
    op: &Op,
    instr: &Instr,
    lines: &mut Backward,
) -> Result<(), AllocError>
    ensures { IfOk result (λ _. lines.new ≡
        line_of (number_of_slot numbers.now) (lin.Op op.now) instr.now ∷ lines.old) }
{
    let line = line_of(alloc, numbers, LinOp::Op(copy_op(op)?), instr)?;
    lines.push(line)
}

/// Puts the lines of an instruction before the others. The only error is want of memory.
pub fn push_instr(
    alloc: Global,
    numbers: &[u32],
    instr: &Instr,
    lines: &mut Backward,
) -> Result<(), AllocError>
    ensures { IfOk result (λ _. lines.new ≡
        lowered_one (number_of_slot numbers.now) instr.now lines.old) }
{
    if is_idle(instr) {
        return Ok(());
    }
    match &instr.op {
        MachOp::Op(op) => push_op(alloc, numbers, op, instr, lines),
        MachOp::Mark(mark) => push_mark(alloc, numbers, mark, instr, lines),
    }
}
