//! The services of the runtime: return, uncaught raise, external calls and allocation.
ghost use Rattle.std.specs.Prelude.{◌≡◌, ◌≤◌, ◌<◌, ◌-◌, ◌^◌, ℕ, List, length, drop, IfOk, suc};
ghost use Rattle.mover_runtime.specs.Written.{AppendsResult, Counts};
ghost use Rattle.alloc_service.specs.Plan.{StaysUnlessServed, both_counted, plan_of, services_counted, with_counts};
ghost use Rattle.alloc_service.specs.Plan.{Serves as ServesBy};
ghost use Rattle.mover_runtime.specs.Standing.{MovesBlocks};
ghost use Rattle.rv_machine.specs.FrameCalls.{collected};
ghost use Rattle.bs_words.specs.declared.types.Ret.{Ret};
ghost use Rattle.mover_runtime.specs.Outcome.{Reports, ServesRun, allocation_text, calling_none, progress_text, last_line, service_now};
ghost use Rattle.mover_runtime.specs.Schedules.{schedule_of};
ghost use Rattle.rv_machine.specs.Allocation.{allocation_served};
ghost use Rattle.rv_isa.specs.Registers.{a0, t2};
ghost use Rattle.rv_machine.specs.Hart.{register};
ghost use Rattle.rv_machine.specs.Services.{after_allocation, service, value_returned};
ghost use Rattle.rv_machine.specs.Services as ends;
ghost use Rattle.rv_machine.specs.Observation.{observed_word};

use crate::calling::{call, frame_call};
use crate::counting;
use crate::outcome::RunEnd;
use crate::schedule::Schedule;
use crate::text::{write_line, write_obs_line, write_stopped};
use alloc_service::{Plan, ServiceEnd};
use bs_io::{OutFault, Sink};
use bs_words::{Comp, Ret};
use rv_isa::Register;
use rv_machine::{Cause, Machine};

/// Does the service before which the machine is, and writes what is reported of it: a line for an external
/// call that is answered, or the last line of the run. `taken` answers were taken before.
///
/// # Errors
///
/// `OutFault::Write` where a write failed or took nothing: the sink then has a part of the line, from its front and
/// not all of it.
pub fn serve<K: Sink>(
    machine: &mut Machine<'_>,
    schedule: &Schedule,
    returns: Ret,
    answers: &[u64],
    taken: &mut usize,
    out: &mut K,
) -> Result<Option<RunEnd>, OutFault>
    requires near { machine.old.pc < 2 ^ 32 }
    requires room { machine.old.retired < 2 ^ 64 - 1 }
    requires services { machine.old.services < 2 ^ 64 - 1 }
    requires within { taken.old ≤ length answers.now }
    ensures reported { Reports result
        (service_now schedule.now machine.old returns answers.now taken.old)
        machine.new returns (drop taken.new answers.now) }
    ensures text { AppendsResult result (K.held out.old) (K.held out.new)
        (progress_text (service_now schedule.now machine.old returns answers.now taken.old)) }
    ensures counts { Counts result (K.faults out.old) (K.faults out.new) }
    ensures retired { machine.new.retired ≤ suc machine.old.retired }
    ensures left { taken.new ≤ length answers.now }
{
    match machine.register(Register::T2 as u8) {
        0 => {
            let end = end_returned(machine, returns, out)?;
            Ok(Some(end))
        }
        1 => {
            let end = end_raised(machine, out)?;
            Ok(Some(end))
        }
        2 => call(machine, returns, answers, taken, out),
        3 => {
            let plan = schedule.plan(machine.services());
            allocate(machine, plan, out)
        }
        4 => frame_call(machine, schedule, returns, answers, taken, out),
        _ => {
            let end = end_stopped(Cause::BadService, out)?;
            Ok(Some(end))
        }
    }
}

/// Moves the blocks at the allocation service or the frame call before which the machine is, where the
/// schedule plans. An allocation service is then done. Of a frame call, the blocks have moved, the young
/// area is empty and the mover asks no more.
pub fn service(machine: &mut Machine<'_>, schedule: &Schedule) -> ServiceEnd
    requires { MovesBlocks machine.old }
    ensures allocates { register machine.old t2 ≡ 3 → ServesBy result (with_counts both_counted
        (allocation_served ((schedule_of schedule.now).plan machine.old.services) machine.old))
        machine.new }
    ensures collects { register machine.old t2 ≡ 4 → ServesBy result (with_counts services_counted
        (collected ((schedule_of schedule.now).plan machine.old.services) machine.old))
        machine.new }
    ensures kept { StaysUnlessServed result machine.old machine.new }
{
    let plan = schedule.plan(machine.services());
    if machine.register(Register::T2 as u8) == 3 {
        alloc_service::serve_allocation(machine, plan)
    } else {
        alloc_service::serve_frame_call(machine, plan)
    }
}

// Does the allocation service under a plan.
fn allocate<K: Sink>(
    machine: &mut Machine<'_>,
    plan: Plan<'_>,
    out: &mut K,
) -> Result<Option<RunEnd>, OutFault>
    requires near { machine.old.pc < 2 ^ 32 }
    requires room { machine.old.retired < 2 ^ 64 - 1 }
    requires services { machine.old.services < 2 ^ 64 - 1 }
    ensures reported { IfOk result (λ end. (returns : Ret) (answers : List ℕ) → ServesRun end
        (after_allocation (allocation_served (plan_of plan.entry) machine.old)
        (calling_none machine.old returns answers)) machine.new returns answers) }
    ensures text { AppendsResult result (K.held out.old) (K.held out.new)
        (allocation_text (allocation_served (plan_of plan.entry) machine.old)) }
    ensures counts { Counts result (K.faults out.old) (K.faults out.new) }
    ensures retired { machine.new.retired ≤ suc machine.old.retired }
{
    match counting::count_allocation(machine, plan) {
        ServiceEnd::Goes => Ok(None),
        ServiceEnd::HeapOut => {
            let end = end_heap_out(out)?;
            Ok(Some(end))
        }
        ServiceEnd::Stopped(cause) => {
            let end = end_stopped(cause, out)?;
            Ok(Some(end))
        }
    }
}

// The run has returned a0 by the type of what its entry returns.
fn end_returned<K: Sink>(
    machine: &Machine<'_>,
    returns: Ret,
    out: &mut K,
) -> Result<RunEnd, OutFault>
    ensures reported { IfOk result (λ end.
        end ≡ RunEnd.Returned (value_returned returns machine.now)) }
    ensures text { AppendsResult result (K.held out.old) (K.held out.new)
        (last_line (ends.Returned (value_returned returns machine.now))) }
    ensures counts { Counts result (K.faults out.old) (K.faults out.new) }
{
    match returns {
        Ret::Unit => {
            write_line(b"returned", out)?;
            Ok(RunEnd::Returned(None))
        }
        Ret::Comp(comp) => {
            let obs = machine.observe(comp, machine.register(Register::A0 as u8));
            write_obs_line(b"returned ", obs, out)?;
            Ok(RunEnd::Returned(Some(obs)))
        }
    }
}

// The run has ended by a raise of a0 that nothing caught.
fn end_raised<K: Sink>(machine: &Machine<'_>, out: &mut K) -> Result<RunEnd, OutFault>
    ensures reported { IfOk result (λ end.
        end ≡ RunEnd.Raised (observed_word machine.now Comp.Val (register machine.now a0))) }
    ensures text { AppendsResult result (K.held out.old) (K.held out.new)
        (last_line (ends.Raised (observed_word machine.now Comp.Val (register machine.now a0)))) }
    ensures counts { Counts result (K.faults out.old) (K.faults out.new) }
{
    let obs = machine.observe(Comp::Val, machine.register(Register::A0 as u8));
    write_obs_line(b"raised ", obs, out)?;
    Ok(RunEnd::Raised(obs))
}

/// Ends the run of a machine that has stopped, and writes its last line.
///
/// # Errors
///
/// `OutFault::Write` where a write failed or took nothing: the sink then has a part of the line, from its front and
/// not all of it.
pub fn end_stopped<K: Sink>(cause: Cause, out: &mut K) -> Result<RunEnd, OutFault>
    ensures reported { IfOk result (λ end. end ≡ RunEnd.Stopped cause) }
    ensures text { AppendsResult result (K.held out.old) (K.held out.new)
        (last_line (ends.Stopped cause)) }
    ensures counts { Counts result (K.faults out.old) (K.faults out.new) }
{
    write_stopped(cause, out)?;
    Ok(RunEnd::Stopped(cause))
}

/// Ends a run that has no stack left, and writes its last line.
///
/// # Errors
///
/// `OutFault::Write` where a write failed or took nothing: the sink then has a part of the line, from its front and
/// not all of it.
pub fn end_stack_out<K: Sink>(out: &mut K) -> Result<RunEnd, OutFault>
    ensures reported { IfOk result (λ end. end ≡ RunEnd.StackOut) }
    ensures text { AppendsResult result (K.held out.old) (K.held out.new) (last_line ends.StackOut) }
    ensures counts { Counts result (K.faults out.old) (K.faults out.new) }
{
    write_line(b"stack out", out)?;
    Ok(RunEnd::StackOut)
}

/// Ends a run whose blocks do not fit half of the heap, and writes its last line.
///
/// # Errors
///
/// `OutFault::Write` where a write failed or took nothing: the sink then has a part of the line, from its front and
/// not all of it.
pub fn end_heap_out<K: Sink>(out: &mut K) -> Result<RunEnd, OutFault>
    ensures reported { IfOk result (λ end. end ≡ RunEnd.HeapOut) }
    ensures text { AppendsResult result (K.held out.old) (K.held out.new) (last_line ends.HeapOut) }
    ensures counts { Counts result (K.faults out.old) (K.faults out.new) }
{
    write_line(b"heap out", out)?;
    Ok(RunEnd::HeapOut)
}

/// Ends a run that goes on past what was allowed, and writes its last line.
///
/// # Errors
///
/// `OutFault::Write` where a write failed or took nothing: the sink then has a part of the line, from its front and
/// not all of it.
pub fn end_more<K: Sink>(out: &mut K) -> Result<RunEnd, OutFault>
    ensures reported { IfOk result (λ end. end ≡ RunEnd.More) }
    ensures text { AppendsResult result (K.held out.old) (K.held out.new) (last_line ends.Running) }
    ensures counts { Counts result (K.faults out.old) (K.faults out.new) }
{
    write_line(b"more", out)?;
    Ok(RunEnd::More)
}
