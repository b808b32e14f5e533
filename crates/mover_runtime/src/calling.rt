//! External calls.
//!
//! A frame call that ends in HeapOut or Stopped is not among the calls, so what its arguments showed is
//! kept until the blocks have moved. S1 is tested after the move, since a descriptor may name it.
ghost use Rattle.std.specs.Prelude.{◌≡◌, ◌≤◌, ◌<◌, ◌-◌, ◌^◌, ℕ, List, [], ◌∷◌, length, drop, IfOk, None, suc};
ghost use Rattle.bs_words.specs.Contents.{contents};
ghost use Rattle.image_form.specs.Tables.{ext};
ghost use Rattle.mover_runtime.specs.Written.{AppendsResult, Counts};
ghost use Rattle.bs_words.specs.declared.types.Ret.{Ret};
ghost use Rattle.mover_runtime.specs.Calling.{AreNext, shown_call, wanted};
ghost use Rattle.mover_runtime.specs.Outcome.{Reports, ServesRun, answered_now, calling_none, external_now, frame_answered_now, frame_call_now, progress_text};
ghost use Rattle.rv_machine.specs.Hart.{Hart};
ghost use Rattle.rv_machine.specs.Services.{call_made, concluded, returned_with};
ghost use Rattle.rv_machine.specs.Step.{registers_after};
ghost use Rattle.rv_machine.specs.Text.{calls_text};

use crate::counting;
use crate::outcome::RunEnd;
use crate::schedule::Schedule;
use crate::serving::{end_heap_out, end_stopped};
use crate::text::{observe_arguments, write_call_line, write_made_line};
use alloc_service::ServiceEnd;
use bs_io::{OutFault, Sink};
use bs_words::{Obs, Ret};
use image_form::ExtRow;
use rv_isa::Register;
use rv_machine::{Cause, Machine};

/// Makes the external call before which the machine is, or ends the run where there is no such call
/// or no answer for it.
///
/// # Errors
///
/// `OutFault::Write` where a write failed or took nothing: the sink then has a part of the call's line or of the last
/// one, from its front and not all of it.
pub fn call<K: Sink>(
    machine: &mut Machine<'_>,
    returns: Ret,
    answers: &[u64],
    taken: &mut usize,
    out: &mut K,
) -> Result<Option<RunEnd>, OutFault>
    requires near { machine.old.pc < 2 ^ 32 }
    requires room { machine.old.retired < 2 ^ 64 - 1 }
    requires within { taken.old ≤ length answers.now }
    ensures reported { Reports result (external_now machine.old returns answers.now taken.old)
        machine.new returns (drop taken.new answers.now) }
    ensures text { AppendsResult result (K.held out.old) (K.held out.new)
        (progress_text (external_now machine.old returns answers.now taken.old)) }
    ensures counts { Counts result (K.faults out.old) (K.faults out.new) }
    ensures retired { machine.new.retired ≤ suc machine.old.retired }
    ensures left { taken.new ≤ length answers.now }
{
    let number = machine.register(Register::T0 as u8) as usize;
    match machine.image().extcs.get(number) {
        Some(row) => answer_call(machine, row, returns, answers, taken, out),
        None => {
            let end = end_stopped(Cause::BadService, out)?;
            Ok(Some(end))
        }
    }
}

// Makes the external call of that row.
fn answer_call<K: Sink>(
    machine: &mut Machine<'_>,
    row: &ExtRow,
    returns: Ret,
    answers: &[u64],
    taken: &mut usize,
    out: &mut K,
) -> Result<Option<RunEnd>, OutFault>
    requires near { machine.old.pc < 2 ^ 32 }
    requires room { machine.old.retired < 2 ^ 64 - 1 }
    requires within { taken.old ≤ length answers.now }
    requires few { length (contents row.now.params) ≤ 16 }
    ensures reported { Reports result
        (answered_now (ext row.now) machine.old returns answers.now taken.old)
        machine.new returns (drop taken.new answers.now) }
    ensures text { AppendsResult result (K.held out.old) (K.held out.new)
        (progress_text (answered_now (ext row.now) machine.old returns answers.now taken.old)) }
    ensures counts { Counts result (K.faults out.old) (K.faults out.new) }
    ensures retired { machine.new.retired ≤ suc machine.old.retired }
    ensures left { taken.new ≤ length answers.now }
{
    match row.result {
        Ret::Unit => finish(machine, row, None, out),
        Ret::Comp(_) => match answers.get(*taken) {
            Some(answer) => {
                *taken += 1;
                finish(machine, row, Some(*answer), out)
            }
            None => {
                write_made_line(b"asks ", machine, row, out)?;
                Ok(Some(RunEnd::Asks))
            }
        },
    }
}

// Writes the line of the call, and goes on after it with its answer.
fn finish<K: Sink>(
    machine: &mut Machine<'_>,
    row: &ExtRow,
    answer: Option<u64>,
    out: &mut K,
) -> Result<Option<RunEnd>, OutFault>
    requires near { machine.old.pc < 2 ^ 32 }
    requires room { machine.old.retired < 2 ^ 64 - 1 }
    requires few { length (contents row.now.params) ≤ 16 }
    ensures reported { IfOk result (λ end. (end ≡ None)
        × (machine.new
        ≡ returned_with (registers_after answer machine.old.registers) machine.old)) }
    ensures text { AppendsResult result (K.held out.old) (K.held out.new)
        (calls_text (call_made (ext row.now) machine.old ∷ [])) }
    ensures counts { Counts result (K.faults out.old) (K.faults out.new) }
    ensures retired { machine.new.retired ≤ suc machine.old.retired }
{
    write_made_line(b"call ", machine, row, out)?;
    counting::finish_call(machine, answer);
    Ok(None)
}

/// Makes the frame call before which the machine is, or ends the run: where there is no such call, fewer
/// than two answers, no whole blocks or frames, no room in the heap, or no trap frame for what it raises.
///
/// # Errors
///
/// `OutFault::Write` where a write failed or took nothing: the sink then has a part of the call's line or of the last
/// one, from its front and not all of it.
pub fn frame_call<K: Sink>(
    machine: &mut Machine<'_>,
    schedule: &Schedule,
    returns: Ret,
    answers: &[u64],
    taken: &mut usize,
    out: &mut K,
) -> Result<Option<RunEnd>, OutFault>
    requires near { machine.old.pc < 2 ^ 32 }
    requires room { machine.old.retired < 2 ^ 64 - 1 }
    requires services { machine.old.services < 2 ^ 64 - 1 }
    requires within { taken.old ≤ length answers.now }
    ensures reported { Reports result
        (frame_call_now schedule.now machine.old returns answers.now taken.old)
        machine.new returns (drop taken.new answers.now) }
    ensures text { AppendsResult result (K.held out.old) (K.held out.new)
        (progress_text (frame_call_now schedule.now machine.old returns answers.now taken.old)) }
    ensures counts { Counts result (K.faults out.old) (K.faults out.new) }
    ensures retired { machine.new.retired ≤ suc machine.old.retired }
    ensures left { taken.new ≤ length answers.now }
{
    let number = machine.register(Register::T0 as u8) as usize;
    match machine.image().extcs.get(number) {
        Some(row) => answer_frame_call(machine, row, schedule, returns, answers, taken, out),
        None => {
            let end = end_stopped(Cause::BadService, out)?;
            Ok(Some(end))
        }
    }
}

// Makes the frame call of that row.
fn answer_frame_call<K: Sink>(
    machine: &mut Machine<'_>,
    row: &ExtRow,
    schedule: &Schedule,
    returns: Ret,
    answers: &[u64],
    taken: &mut usize,
    out: &mut K,
) -> Result<Option<RunEnd>, OutFault>
    requires near { machine.old.pc < 2 ^ 32 }
    requires room { machine.old.retired < 2 ^ 64 - 1 }
    requires services { machine.old.services < 2 ^ 64 - 1 }
    requires within { taken.old ≤ length answers.now }
    requires few { length (contents row.now.params) ≤ 16 }
    ensures reported { Reports result
        (frame_answered_now schedule.now (ext row.now) machine.old returns answers.now taken.old)
        machine.new returns (drop taken.new answers.now) }
    ensures text { AppendsResult result (K.held out.old) (K.held out.new)
        (progress_text
        (frame_answered_now schedule.now (ext row.now) machine.old returns answers.now taken.old)) }
    ensures counts { Counts result (K.faults out.old) (K.faults out.new) }
    ensures retired { machine.new.retired ≤ suc machine.old.retired }
    ensures left { taken.new ≤ length answers.now }
{
    let Some(answer) = next_two(answers, *taken) else {
        write_made_line(b"asks ", machine, row, out)?;
        return Ok(Some(RunEnd::Asks));
    };
    let shown = observe_arguments(machine, &row.params);
    let plan = schedule.plan(machine.services());
    match counting::count_frame_call(machine, plan) {
        ServiceEnd::Goes => {
            *taken += 2;
            conclude(machine, row, &shown[..row.params.len()], answer, out)
        }
        ServiceEnd::HeapOut => {
            let end = end_heap_out(out)?;
            Ok(Some(end))
        }
        ServiceEnd::Stopped(cause) => {
            let end = end_stopped(cause, out)?;
            Ok(Some(end))
        }
    }
}

/// The two answers of a frame call: whether it raises, and the value.
#[derive(Clone, Copy)]
pub(crate) struct Answer {
    pub raises: u64,
    pub value: u64,
}

// The next two answers, where they are left.
fn next_two(answers: &[u64], taken: usize) -> Option<Answer>
    requires { taken ≤ length answers.now }
    ensures { AreNext result (drop taken answers.now) }
{
    match &answers[taken..] {
        [raises, value, ..] => Some(Answer {
            raises: *raises,
            value: *value,
        }),
        _ => None,
    }
}

// Goes on after a frame call whose blocks have moved, or ends the run where it raises and there is no trap
// frame.
fn conclude<K: Sink>(
    machine: &mut Machine<'_>,
    row: &ExtRow,
    shown: &[Obs],
    answer: Answer,
    out: &mut K,
) -> Result<Option<RunEnd>, OutFault>
    requires near { machine.old.pc < 2 ^ 32 }
    requires room { machine.old.retired < 2 ^ 64 - 1 }
    ensures reported { IfOk result (λ end. (h : Hart) (returns : Ret) (all left : List ℕ) →
        ServesRun end
        (concluded row.now.result (shown_call row.now.name shown.now) answer.raises answer.value left
        machine.old (calling_none h returns all)) machine.new returns left) }
    ensures text { (h : Hart) (returns : Ret) (all left : List ℕ) → AppendsResult result
        (K.held out.old) (K.held out.new) (progress_text (concluded row.now.result
        (shown_call row.now.name shown.now) answer.raises answer.value left machine.old
        (calling_none h returns all))) }
    ensures counts { Counts result (K.faults out.old) (K.faults out.new) }
    ensures retired { machine.new.retired ≤ suc machine.old.retired }
{
    if answer.raises == 0 {
        write_call_line(b"call ", &row.name, shown, out)?;
        counting::finish_call(machine, wanted(row.result, answer.value));
        return Ok(None);
    }
    if !machine.has_trap_frame() {
        let end = end_stopped(Cause::BadFrame, out)?;
        return Ok(Some(end));
    }
    write_call_line(b"call ", &row.name, shown, out)?;
    counting::raise(machine, answer.value);
    Ok(None)
}

// The value, where the result type has one.
fn wanted(returns: Ret, value: u64) -> Option<u64>
    ensures { result ≡ wanted returns value }
{
    match returns {
        Ret::Unit => None,
        Ret::Comp(_) => Some(value),
    }
}
