//! A run of a machine that was just loaded.
ghost use Rattle.std.specs.Prelude.{◌≡◌, ◌≤◌, ◌<◌, ◌-◌, ◌^◌, length, drop, IfOk, suc};
ghost use Rattle.mover_runtime.specs.Written.{AppendsResult, Counts};
ghost use Rattle.mover_runtime.specs.Outcome.{Reports, asked_if, end_reported, entry_result, one_now, progress_text, run_of};
ghost use Rattle.rv_machine.specs.Text.{outcome_text};

use crate::counting;
use crate::outcome::RunEnd;
use crate::schedule::Schedule;
use crate::serving::{end_more, end_stack_out, end_stopped, serve};
use bs_io::{OutFault, Sink};
use bs_words::Ret;
use rv_machine::{CODE_START, Machine, StepEnd};

/// Runs the machine to an end, or until `limit` instructions have retired, and writes the outcome text:
/// a line for each external call when it is answered, and one line for the end. It takes no memory.
///
/// Before each instruction the mover asks where the schedule says so, and each allocation service and
/// frame call moves the blocks where it says.
///
/// The machine was just loaded.
///
/// # Errors
///
/// `OutFault::Write` where a write failed or took nothing, which ends the run: the sink then has a part of the text,
/// from its front and not all of it.
pub fn run_image<K: Sink>(
    machine: &mut Machine<'_>,
    answers: &[u64],
    schedule: &Schedule,
    limit: u64,
    out: &mut K,
) -> Result<RunEnd, OutFault>
    requires fresh { machine.old.retired ≡ 0 }
    requires unmoved { machine.old.services ≡ 0 }
    ensures reported { IfOk result (λ end.
        end ≡ end_reported (run_of machine.old answers.now schedule.now limit).end) }
    ensures text { AppendsResult result (K.held out.old) (K.held out.new)
        (outcome_text (run_of machine.old answers.now schedule.now limit)) }
    ensures counts { Counts result (K.faults out.old) (K.faults out.new) }
    ensures retired { machine.new.retired ≤ limit }
{
    let returns = entry_result(machine);
    let mut asks = schedule.asks();
    let mut taken = 0;
    let mut count = 0;
    while count < limit {
        let asked = asks.next(count);
        if let Some(end) = one(machine, asked, schedule, returns, answers, &mut taken, out)? {
            return Ok(end);
        }
        count += 1;
    }
    end_more(out)
}

// One instruction, with the ask before it where the mover asks, and its service where it is an ECALL.
// `taken` answers were taken before.
#[inline]
fn one<K: Sink>(
    machine: &mut Machine<'_>,
    asks: bool,
    schedule: &Schedule,
    returns: Ret,
    answers: &[u64],
    taken: &mut usize,
    out: &mut K,
) -> Result<Option<RunEnd>, OutFault>
    requires room { machine.old.retired < 2 ^ 64 - 1 }
    requires services { machine.old.services < 2 ^ 64 - 1 }
    requires within { taken.old ≤ length answers.now }
    ensures reported { Reports result
        (one_now schedule.now asks machine.old returns answers.now taken.old)
        machine.new returns (drop taken.new answers.now) }
    ensures text { AppendsResult result (K.held out.old) (K.held out.new)
        (progress_text (one_now schedule.now asks machine.old returns answers.now taken.old)) }
    ensures counts { Counts result (K.faults out.old) (K.faults out.new) }
    ensures retired { machine.new.retired ≤ suc machine.old.retired }
    ensures left { taken.new ≤ length answers.now }
{
    ask_if(machine, asks);
    match counting::step(machine) {
        StepEnd::Retired => Ok(None),
        StepEnd::Service => serve(machine, schedule, returns, answers, taken, out),
        StepEnd::StackOut => {
            let end = end_stack_out(out)?;
            Ok(Some(end))
        }
        StepEnd::Stopped(cause) => {
            let end = end_stopped(cause, out)?;
            Ok(Some(end))
        }
    }
}

// The mover asks before the next instruction, or does not.
#[inline]
fn ask_if(machine: &mut Machine<'_>, asks: bool)
    ensures exact { machine.new ≡ asked_if asks machine.old }
    ensures retired { machine.new.retired ≡ machine.old.retired }
{
    if asks {
        machine.ask();
    }
}

// The type of what the function returns at whose entry the machine is.
fn entry_result(machine: &Machine<'_>) -> Ret
    ensures { result ≡ entry_result machine.now }
{
    for row in machine.image().funcs.as_slice() {
        if CODE_START + u64::from(row.offset) == machine.pc() {
            return row.result;
        }
    }
    Ret::Unit
}
