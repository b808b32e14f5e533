//! The text of a Linear function.
ghost use Rattle.std.specs.Prelude.{◌≡◌, ◌++◌, true, false, IfOk};
ghost use Rattle.bs_words.specs.Contents.{contents};
ghost use Rattle.mach_ir.specs.Pages.{AddsText};
ghost use Rattle.mach_ir.specs.Words.{label_text, separator};
ghost use Rattle.lin_ir.specs.Text.{spot_text, spots_text, results_text, labels_text, flow_word, flow_text, lin_word};
ghost use Rattle.lin_ir.specs.Text.{lin_op_text, stays_first, indent_of, line_text, lines_text, lin_text};

use crate::lin::{Flow, Lin, LinOp, Line, Spot};
use bs_words::{List, Loc};
use mach_ir::page::{Page, right_of};
use mach_ir::{Label, Right};
use std::alloc::{AllocError, Global};

/// The text of a function. The only error is want of memory.
pub fn text(alloc: Global, lin: &Lin) -> Result<List<u8>, AllocError>
    ensures { IfOk result (λ text. contents text ≡ lin_text lin.now) }
{
    let mut page = Page::new(alloc);
    page.put(b"function ")?;
    page.put(lin.name.as_bytes())?;
    page.put(b"\n")?;
    put_lines(&mut page, lin.code.as_slice())?;
    Ok(List::from_vec(page.bytes))
}

fn put_lines(page: &mut Page, code: &[Line]) -> Result<(), AllocError>
    ensures { IfOk result (λ _. AddsText page.old page.new (lines_text code.now)) }
{
    for line in code {
        put_line(page, line)?;
    }
    Ok(())
}

fn put_line(page: &mut Page, line: &Line) -> Result<(), AllocError>
    ensures { IfOk result (λ _. AddsText page.old page.new (line_text line.now)) }
{
    let args = line.args.as_slice();
    page.put(indent_of(&line.op))?;
    put_results(page, line.results.as_slice())?;
    put_word(page, &line.op)?;
    put_args(page, args)?;
    put_rest(page, args.is_empty(), &line.op)?;
    page.put(b"\n")
}

/// What is before a line.
fn indent_of(op: &LinOp) -> &'static [u8]
    ensures { result.now ≡ indent_of op.now }
{
    match op {
        LinOp::Flow(Flow::Label(_)) => b"",
        LinOp::Op(_) => b"  ",
        LinOp::Flow(Flow::Jump(_)) => b"  ",
        LinOp::Flow(Flow::Exit(_)) => b"  ",
        LinOp::Flow(Flow::Branch { test: _, label: _ }) => b"  ",
        LinOp::Flow(Flow::Switch(_)) => b"  ",
        LinOp::Flow(Flow::PushTrap(_)) => b"  ",
        LinOp::Flow(Flow::PopTrap) => b"  ",
        LinOp::Flow(Flow::EnterTrap) => b"  ",
    }
}

fn put_spot(page: &mut Page, spot: Spot) -> Result<(), AllocError>
    ensures { IfOk result (λ _. AddsText page.old page.new (spot_text spot)) }
{
    match spot.loc {
        Loc::Unset => page.put(b"r")?,
        Loc::Machine(number) => page.put_register(number)?,
        Loc::Slot(slot) => page.put_slot(slot)?,
    }
    page.put_comp(spot.comp)
}

/// Locations after others.
fn put_more(page: &mut Page, spots: &[Spot]) -> Result<(), AllocError>
    ensures { IfOk result (λ _. AddsText page.old page.new (spots_text false spots.now)) }
{
    for spot in spots {
        page.put_separator(false)?;
        put_spot(page, *spot)?;
    }
    Ok(())
}

fn put_args(page: &mut Page, spots: &[Spot]) -> Result<(), AllocError>
    ensures { IfOk result (λ _. AddsText page.old page.new (spots_text true spots.now)) }
{
    match spots.split_first() {
        None => Ok(()),
        Some((spot, others)) => {
            page.put_separator(true)?;
            put_spot(page, *spot)?;
            put_more(page, others)
        }
    }
}

fn put_results(page: &mut Page, spots: &[Spot]) -> Result<(), AllocError>
    ensures { IfOk result (λ _. AddsText page.old page.new (results_text spots.now)) }
{
    match spots.split_first() {
        None => Ok(()),
        Some((spot, others)) => {
            put_spot(page, *spot)?;
            put_more(page, others)?;
            page.put(b" = ")
        }
    }
}

fn put_word(page: &mut Page, op: &LinOp) -> Result<(), AllocError>
    ensures { IfOk result (λ _. AddsText page.old page.new (lin_word op.now)) }
{
    match op {
        LinOp::Op(op) => page.put_op_word(op),
        LinOp::Flow(flow) => put_flow_word(page, flow),
    }
}

fn put_flow_word(page: &mut Page, flow: &Flow) -> Result<(), AllocError>
    ensures { IfOk result (λ _. AddsText page.old page.new (flow_word flow.now)) }
{
    match flow {
        Flow::Label(label) => {
            page.put_label(*label)?;
            page.put(b":")
        }
        Flow::Jump(_) => page.put(b"jump"),
        Flow::Exit(_) => page.put(b"jump"),
        Flow::Branch { test, label: _ } => {
            page.put(b"branch")?;
            page.put_test_word(*test)
        }
        Flow::Switch(_) => page.put(b"switch"),
        Flow::PushTrap(_) => page.put(b"pushtrap"),
        Flow::PopTrap => page.put(b"poptrap"),
        Flow::EnterTrap => page.put(b"entertrap"),
    }
}

/// The operands of an operation that are no locations.
fn put_rest(page: &mut Page, first: bool, op: &LinOp) -> Result<(), AllocError>
    ensures { IfOk result (λ _. AddsText page.old page.new (lin_op_text first op.now)) }
{
    match op {
        LinOp::Op(op) => page.put_op(first, op),
        LinOp::Flow(flow) => put_flow(page, first, flow),
    }
}

fn put_flow(page: &mut Page, first: bool, flow: &Flow) -> Result<(), AllocError>
    ensures { IfOk result (λ _. AddsText page.old page.new (flow_text first flow.now)) }
{
    match flow {
        Flow::Label(_) => Ok(()),
        Flow::Jump(label) => put_marked_label(page, first, *label),
        Flow::Exit(label) => put_marked_label(page, first, *label),
        Flow::Branch { test, label } => {
            let right = right_of(*test);
            page.put_right(first, right)?;
            put_marked_label(page, stays_first(first, right), *label)
        }
        Flow::Switch(labels) => put_labels(page, first, labels.as_slice()),
        Flow::PushTrap(label) => put_marked_label(page, first, *label),
        Flow::PopTrap => Ok(()),
        Flow::EnterTrap => Ok(()),
    }
}

fn stays_first(first: bool, right: Right) -> bool
    ensures { result ≡ stays_first first right }
{
    match right {
        Right::Register => first,
        Right::Constant(_) => false,
    }
}

fn put_marked_label(page: &mut Page, first: bool, label: Label) -> Result<(), AllocError>
    ensures { IfOk result (λ _. AddsText page.old page.new (separator first ++ label_text label)) }
{
    page.put_separator(first)?;
    page.put_label(label)
}

/// Labels after others.
fn put_more_labels(page: &mut Page, labels: &[Label]) -> Result<(), AllocError>
    ensures { IfOk result (λ _. AddsText page.old page.new (labels_text false labels.now)) }
{
    for label in labels {
        put_marked_label(page, false, *label)?;
    }
    Ok(())
}

fn put_labels(page: &mut Page, first: bool, labels: &[Label]) -> Result<(), AllocError>
    ensures { IfOk result (λ _. AddsText page.old page.new (labels_text first labels.now)) }
{
    match labels.split_first() {
        None => Ok(()),
        Some((label, others)) => {
            put_marked_label(page, first, *label)?;
            put_more_labels(page, others)
        }
    }
}
