//! The pieces of a function: its entry, and a part for each line, in their order.
ghost use Rattle.std.specs.Prelude.{◌≡◌, ◌≤◌, IfOk, option_copied, slice_index};
ghost use Rattle.lin_ir.specs.Descriptors.{frame_bytes, FitsDescriptors};
ghost use Rattle.lin_ir.specs.Formed.{AreLocated};
ghost use Rattle.lin_ir.specs.Walks.{OneDepth};
ghost use Rattle.rv_emit_rules.specs.Calls.{mark_of};
ghost use Rattle.rv_emit_rules.specs.Emitted.{operator_part, pure_part, access_part, calling_part, leaving_part, op_part};
ghost use Rattle.rv_emit_rules.specs.Emitted.{flow_part, part_of_line, part_before, descriptor, left_after};
ghost use Rattle.rv_emit_rules.specs.Emitted.{parts_of_lines, emitted, IsEmitted};
ghost use Rattle.rv_emit.specs.Outputs.{AddsPieces};
ghost use Rattle.rv_emit.specs.Frames.{frame_layout_of};

use crate::form::FrameForm;
use crate::frames::frame_of;
use crate::output::Output;
use crate::slots::{first, register_of, second, target};
use crate::units::is_free;
use bs_words::IntOp;
use frame_tables::pushed_traps;
use lin_ir::{Descr, Flow, Lin, LinOp, Line, Spot};
use mach_ir::{Access, Calling, Leaving, Op, Pure, Right, Seq};
use rv_isa::Register;
use rv_pieces::{Piece, Pieces};
use std::alloc::{AllocError, Global};

impl Output {
    fn operator_part(
        &mut self,
        traps: u32,
        op: IntOp,
        right: Right,
        args: &[Spot],
        results: &[Spot],
    ) -> Result<(), AllocError>
        ensures { IfOk result (λ _.
            AddsPieces self.old self.new (operator_part traps op right args.now results.now)) }
    {
        let left = first(args);
        let to = first(results);
        self.fetched(traps, Register::T1, left)?;
        match right {
            Right::Register => {
                let other = second(args);
                self.fetched(traps, Register::T2, other)?;
                let right = register_of(Register::T2, other);
                self.operated(op, target(to), register_of(Register::T1, left), right)?;
                self.kept(traps, to)
            }
            Right::Constant(word) => {
                self.operated_with(op, target(to), register_of(Register::T1, left), word)?;
                self.kept(traps, to)
            }
        }
    }

    fn pure_part(
        &mut self,
        traps: u32,
        op: &Pure,
        args: &[Spot],
        results: &[Spot],
    ) -> Result<(), AllocError>
        ensures { IfOk result (λ _.
            AddsPieces self.old self.new (pure_part traps op.now args.now results.now)) }
    {
        let to = first(results);
        match op {
            Pure::Copy(_) => self.moved(traps, first(args), to),
            Pure::Constant(word) => {
                self.constant(target(to), *word)?;
                self.kept(traps, to)
            }
            Pure::Symbol(name) => {
                self.symbol_address(target(to), name)?;
                self.kept(traps, to)
            }
            Pure::Operator(op, right) => self.operator_part(traps, *op, *right, args, results),
        }
    }

    fn access_part(
        &mut self,
        traps: u32,
        mark: Option<&Descr>,
        op: &Access,
        args: &[Spot],
        results: &[Spot],
    ) -> Result<(), AllocError>
        ensures { IfOk result (λ _.
            AddsPieces self.old self.new
            (access_part traps (mark_of (option_copied mark.entry)) op.now args.now results.now)) }
    {
        match op {
            Access::Load { chunk, offset } => {
                self.load_part(traps, *chunk, *offset, args, results)
            }
            Access::Store { chunk, offset } => self.store_part(traps, *chunk, *offset, args),
            Access::Alloc(blocks) => self.alloc_part(traps, mark, blocks, results),
        }
    }

    fn calling_part(
        &mut self,
        traps: u32,
        frame: FrameForm,
        mark: Option<&Descr>,
        op: &Calling,
        args: &[Spot],
    ) -> Result<(), AllocError>
        ensures { IfOk result (λ _.
            AddsPieces self.old self.new
            (calling_part traps (frame_layout_of frame)
            (mark_of (option_copied mark.entry)) op.now args.now)) }
    {
        match op {
            Calling::Call { callee, result: _ } => {
                self.call_words(traps, callee, args)?;
                self.mark(mark)
            }
            Calling::TailCall { callee, result: _ } => {
                self.tail_call_part(traps, frame, callee, args)
            }
            Calling::External { row, frame } => {
                self.external_words(row, *frame)?;
                self.mark(mark)
            }
        }
    }

    fn leaving_part(
        &mut self,
        traps: u32,
        frame: FrameForm,
        op: Leaving,
        args: &[Spot],
    ) -> Result<(), AllocError>
        ensures { IfOk result (λ _.
            AddsPieces self.old self.new (leaving_part traps (frame_layout_of frame) op args.now)) }
    {
        match op {
            Leaving::Checkbound(right) => self.check_part(traps, right, args),
            Leaving::Raise => self.raise_words(),
            Leaving::Return => self.return_part(frame),
        }
    }

    fn op_part(
        &mut self,
        traps: u32,
        frame: FrameForm,
        mark: Option<&Descr>,
        op: &Op,
        args: &[Spot],
        results: &[Spot],
    ) -> Result<(), AllocError>
        ensures { IfOk result (λ _.
            AddsPieces self.old self.new
            (op_part traps (frame_layout_of frame)
            (mark_of (option_copied mark.entry)) op.now args.now results.now)) }
    {
        match op {
            Op::Pure(op) => self.pure_part(traps, op, args, results),
            Op::Access(op) => self.access_part(traps, mark, op, args, results),
            Op::Calling(op) => self.calling_part(traps, frame, mark, op, args),
            Op::Leaving(op) => self.leaving_part(traps, frame, *op, args),
        }
    }

    fn flow_part(
        &mut self,
        traps: u32,
        flow: &Flow,
        args: &[Spot],
        results: &[Spot],
    ) -> Result<(), AllocError>
        ensures { IfOk result (λ _.
            AddsPieces self.old self.new (flow_part traps flow.now args.now results.now)) }
    {
        match flow {
            Flow::Label(label) => self.put(Piece::Label(*label)),
            Flow::Jump(label) => self.put(Piece::Jump(*label)),
            Flow::Exit(label) => self.put(Piece::Jump(*label)),
            Flow::Branch { test, label } => self.branch_part(traps, *test, *label, args),
            Flow::Switch(labels) => self.switch_part(traps, labels.as_slice(), args),
            Flow::PushTrap(label) => self.push_part(*label),
            Flow::PopTrap => self.pop_part(),
            Flow::EnterTrap => self.enter_part(traps, results),
        }
    }

    /// The part of a line.
    fn part(
        &mut self,
        traps: u32,
        frame: FrameForm,
        mark: Option<&Descr>,
        line: &Line,
    ) -> Result<(), AllocError>
        ensures { IfOk result (λ _.
            AddsPieces self.old self.new
            (part_of_line traps (frame_layout_of frame) (option_copied mark.entry) line.now)) }
    {
        let args = line.args.as_slice();
        let results = line.results.as_slice();
        match &line.op {
            LinOp::Op(op) => self.op_part(traps, frame, mark, op, args, results),
            LinOp::Flow(flow) => self.flow_part(traps, flow, args, results),
        }
    }

    /// The part of a line before this code.
    fn part_before(
        &mut self,
        traps: u32,
        frame: FrameForm,
        mark: Option<&Descr>,
        line: &Line,
        next: &[Line],
    ) -> Result<(), AllocError>
        ensures { IfOk result (λ _.
            AddsPieces self.old self.new
            (part_before traps (frame_layout_of frame) (option_copied mark.entry) line.now next.now)) }
    {
        if is_free(&line.op, next) {
            return Ok(());
        }
        self.part(traps, frame, mark, line)
    }

    /// The parts of lines. `pushed`: by the number of lines after a line, the number of traps that
    /// are pushed before it.
    fn parts(
        &mut self,
        frame: FrameForm,
        pushed: &[u32],
        descriptors: &[Descr],
        code: &[Line],
    ) -> Result<(), AllocError>
        ensures { IfOk result (λ _.
            AddsPieces self.old self.new
            (parts_of_lines (λ left.
            slice_index pushed.now left) (frame_layout_of frame) descriptors.now code.now)) }
    {
        let mut rest = code;
        let mut left = descriptors;
        while let Some((line, next)) = rest.split_first() {
            let passes = line.op.passes_frame();
            let traps = traps_at(pushed, next.len());
            self.part_before(traps, frame, descriptor(passes, left), line, next)?;
            left = left_after(passes, left);
            rest = next;
        }
        Ok(())
    }
}

/// The number of traps before the line with so many lines after it.
fn traps_at(pushed: &[u32], left: usize) -> u32
    ensures { result ≡ slice_index pushed.now left }
{
    if left < pushed.len() { pushed[left] } else { 0 }
}

/// The descriptor of a line, which is a frame point or not: the first that is left.
fn descriptor(passes: bool, left: &[Descr]) -> Option<&Descr>
    ensures { option_copied result ≡ descriptor passes left.now }
{
    if passes { left.first() } else { None }
}

/// The descriptors that are left after it.
fn left_after(passes: bool, left: &[Descr]) -> &[Descr]
    ensures { result.now ≡ left_after passes left.now }
{
    if !passes {
        return left;
    }
    match left.split_first() {
        None => left,
        Some((_, others)) => others,
    }
}

/// The pieces of a function. `pushed`: by the number of lines after a line, the number of traps that
/// are pushed before it.
fn emit_with(
    alloc: Global,
    lin: &Lin,
    pushed: &[u32],
    descriptors: &[Descr],
) -> Result<Pieces, AllocError>
    requires { frame_bytes lin.now ≤ 1048576 }
    ensures { IfOk result (λ pieces.
        pieces ≡ emitted lin.now (λ left. slice_index pushed.now left) descriptors.now) }
{
    let frame = frame_of(lin);
    let mut output = Output::new(alloc);
    output.entry(frame)?;
    output.parts(frame, pushed, descriptors, lin.code.as_slice())?;
    let Output { pieces, alloc: _ } = output;
    Ok(Pieces {
        frame: frame.bytes,
        code: Seq::from_vec(pieces),
    })
}

/// The pieces of a function. `descriptors`: one for each frame point that is no tail call, in the
/// order of the lines.
///
/// What is asked of the function is what its descriptors ask too. More positions of walks than a number
/// can count are want of memory.
pub fn emit(alloc: Global, lin: &Lin, descriptors: &[Descr]) -> Result<Pieces, AllocError>
    requires located { AreLocated lin.now }
    requires depth { OneDepth lin.now }
    requires within { FitsDescriptors lin.now }
    ensures { IfOk result (λ pieces. IsEmitted lin.now descriptors.now pieces) }
{
    let pushed = pushed_traps(alloc, lin)?;
    emit_with(alloc, lin, pushed.as_slice(), descriptors)
}
