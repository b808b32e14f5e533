//! The text that is reported of a run of a text.
ghost use Rattle.std.specs.Prelude.{◌≡◌, map, IfOk};
ghost use Rattle.bs_words.specs.Contents.{contents};
ghost use Rattle.eval_frames.specs.Views.{call_view, outcome_view, eval_view};
ghost use Rattle.mach_ir.specs.Pages.{AddsText};
ghost use Rattle.rv_machine.specs.Text.{obs_text, shown_text, made_text, calls_text, returned_text};
ghost use Rattle.text_commands.specs.Lines.{kind_text, run_outcome_text, need_text, check_text, cmm_outcome_text};

use bs_words::{Call, Kind, List, Obs};
use cmm_eval::{Eval, Outcome};
use mach_ir::page::Page;
use std::alloc::{AllocError, Global};

/// What is reported of a run of a text, which had so much fuel.
pub(crate) fn told_of(alloc: Global, eval: &Eval, fuel: u64) -> Result<List<u8>, AllocError>
    ensures { IfOk result (λ text. contents text ≡ check_text fuel (eval_view eval.now)) }
{
    let mut page = Page::new(alloc);
    put_outcome(&mut page, eval)?;
    put_need(&mut page, b"stack", eval.stack_need)?;
    put_need(&mut page, b"heap", eval.heap_bytes)?;
    put_need(&mut page, b"fuel", fuel.saturating_sub(eval.left))?;
    Ok(List::from_vec(page.bytes))
}

/// The outcome of a run of a text: a line for each external call, and one for how it ended.
pub(crate) fn outcome_of(alloc: Global, eval: &Eval) -> Result<List<u8>, AllocError>
    ensures { IfOk result (λ text. contents text ≡ cmm_outcome_text (eval_view eval.now)) }
{
    let mut page = Page::new(alloc);
    put_outcome(&mut page, eval)?;
    Ok(List::from_vec(page.bytes))
}

/// An observation: a word as a signed decimal, or a block by its serial.
fn put_obs(page: &mut Page, obs: Obs) -> Result<(), AllocError>
    ensures { IfOk result (λ _. AddsText page.old page.new (obs_text obs)) }
{
    match obs {
        Obs::Word(word) => page.put_word(word),
        Obs::Block(serial) => {
            page.put(b"block ")?;
            page.put_number(serial)
        }
    }
}

/// Each observation after a space.
fn put_shown(page: &mut Page, shown: &[Obs]) -> Result<(), AllocError>
    ensures { IfOk result (λ _. AddsText page.old page.new (shown_text shown.now)) }
{
    for obs in shown {
        page.put(b" ")?;
        put_obs(page, *obs)?;
    }
    Ok(())
}

/// An external call: its name, and what its arguments showed.
fn put_made(page: &mut Page, call: &Call) -> Result<(), AllocError>
    ensures { IfOk result (λ _. AddsText page.old page.new (made_text (call_view call.now))) }
{
    page.put(call.name.as_bytes())?;
    put_shown(page, call.args.as_slice())
}

/// A line for each external call.
fn put_calls(page: &mut Page, calls: &[Call]) -> Result<(), AllocError>
    ensures { IfOk result (λ _. AddsText page.old page.new (calls_text (map call_view calls.now))) }
{
    for call in calls {
        page.put(b"call ")?;
        put_made(page, call)?;
        page.put(b"\n")?;
    }
    Ok(())
}

fn put_returned(page: &mut Page, value: Option<Obs>) -> Result<(), AllocError>
    ensures { IfOk result (λ _. AddsText page.old page.new (returned_text value)) }
{
    match value {
        None => page.put(b"returned"),
        Some(obs) => {
            page.put(b"returned ")?;
            put_obs(page, obs)
        }
    }
}

/// How the run ended.
fn put_end(page: &mut Page, outcome: &Outcome) -> Result<(), AllocError>
    ensures { IfOk result (λ _. AddsText page.old page.new (run_outcome_text (outcome_view outcome.now))) }
{
    match outcome {
        Outcome::Returned(value) => put_returned(page, *value),
        Outcome::Raised(obs) => {
            page.put(b"raised ")?;
            put_obs(page, *obs)
        }
        Outcome::Asks(call) => {
            page.put(b"asks ")?;
            put_made(page, call)
        }
        Outcome::More => page.put(b"more"),
        Outcome::Improper(kind) => {
            page.put(b"improper ")?;
            page.put(kind_name(*kind))
        }
    }
}

/// A line for each external call, and one for how the run ended.
fn put_outcome(page: &mut Page, eval: &Eval) -> Result<(), AllocError>
    ensures { IfOk result (λ _.
        AddsText page.old page.new (cmm_outcome_text (eval_view eval.now))) }
{
    put_calls(page, eval.calls.as_slice())?;
    put_end(page, &eval.outcome)?;
    page.put(b"\n")
}

/// A word and a number on a line.
fn put_need(page: &mut Page, name: &[u8], number: u64) -> Result<(), AllocError>
    ensures { IfOk result (λ _. AddsText page.old page.new (need_text name.now number)) }
{
    page.put(name)?;
    page.put(b" ")?;
    page.put_number(number)?;
    page.put(b"\n")
}

fn kind_name(kind: Kind) -> &'static [u8]
    ensures { result.now ≡ kind_text kind }
{
    match kind {
        Kind::BadAddress => b"BadAddress",
        Kind::HiddenPointer => b"HiddenPointer",
        Kind::BadValue => b"BadValue",
        Kind::PointerArithmetic => b"PointerArithmetic",
        Kind::PointerOrder => b"PointerOrder",
        Kind::PartOfPointer => b"PartOfPointer",
        Kind::HeaderWrite => b"HeaderWrite",
        Kind::DivideByZero => b"DivideByZero",
        Kind::ShiftRange => b"ShiftRange",
        Kind::SwitchRange => b"SwitchRange",
        Kind::BadCall => b"BadCall",
    }
}
