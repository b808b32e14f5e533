//! The services that move the blocks.
//!
//! A service that stops leaves the machine as it was: young blocks that were taken into the table are taken
//! back.
ghost use Rattle.std.specs.Prelude.{◌≡◌, ◌≤◌, ◌<◌, ◌-◌, ◌^◌};
ghost use Rattle.rv_machine.specs.Allocation.{allocation_served, is_request};
ghost use Rattle.rv_machine.specs.FrameCalls.{collected};
ghost use Rattle.rv_machine.specs.Observation.{blocks_at};
ghost use Rattle.rv_machine.specs.Relocation.{emptied, with_blocks};
ghost use Rattle.alloc_service.specs.Plan.{StaysUnlessServed, Serves, both_counted, plan_of, services_counted, with_counts};

use crate::attempt::{Caller, attempt};
use crate::plan::Plan;
use crate::roots::Stack;
use crate::service_end::ServiceEnd;
use crate::young::{Taken, take_young};
use rv_isa::Register;
use rv_machine::start::{DOMAIN_START, YOUNG_START, YOUNG_TOP};
use rv_machine::{Cause, Machine};

/// The allocation service, before whose ECALL the machine is.
///
/// t0 is a multiple of 8 from 16 to 2,056, and the young blocks lie from s10 + t0 up to the young area's
/// top, else `BadRequest`. Where all blocks do not fit a half it answers `HeapOut`. A stack that does not
/// read as frames is `BadFrame`, and a word that may not be where a frame names it `BadRoot`. Else the
/// blocks move to where the plan puts them, and what points to them is rewritten.
///
/// A machine that is stopped, or has no heap, is left as it was. A count of the machine stays at the end
/// of its type.
#[tactic(auto, unfolding(rv_machine::specs::Allocation::allocation_served))]
pub fn serve_allocation(machine: &mut Machine<'_>, plan: Plan<'_>) -> ServiceEnd
    requires near { machine.old.pc < 2 ^ 32 }
    ensures exact { Serves result
        (with_counts both_counted (allocation_served (plan_of plan.entry) machine.old)) machine.new }
    ensures kept { StaysUnlessServed result machine.old machine.new }
{
    let bytes = machine.registers[Register::T0 as usize];
    if !is_request(bytes) {
        return ServiceEnd::Stopped(Cause::BadRequest);
    }
    let from = bs_words::add(machine.registers[Register::S10 as usize], bytes);
    match relocate(machine, plan, from) {
        ServiceEnd::Goes => {
            empty(machine, bytes);
            machine.pc += 4;
            machine.retired = machine.retired.saturating_add(1);
            ServiceEnd::Goes
        }
        ServiceEnd::HeapOut => ServiceEnd::HeapOut,
        ServiceEnd::Stopped(cause) => ServiceEnd::Stopped(cause),
    }
}

/// Moves the blocks at a frame call, before whose ECALL the machine is. The ECALL does not retire.
///
/// The young blocks lie from s10 up to the young area's top, else `BadRequest`. The other answers are
/// those of `serve_allocation`.
pub fn serve_frame_call(machine: &mut Machine<'_>, plan: Plan<'_>) -> ServiceEnd
    requires near { machine.old.pc < 2 ^ 32 }
    ensures exact { Serves result
        (with_counts services_counted (collected (plan_of plan.entry) machine.old)) machine.new }
    ensures kept { StaysUnlessServed result machine.old machine.new }
    ensures place { machine.new.pc ≡ machine.old.pc }
{
    let from = machine.register(Register::S10 as u8);
    match relocate(machine, plan, from) {
        ServiceEnd::Goes => {
            empty(machine, 0);
            ServiceEnd::Goes
        }
        ServiceEnd::HeapOut => ServiceEnd::HeapOut,
        ServiceEnd::Stopped(cause) => ServiceEnd::Stopped(cause),
    }
}

// Empties the young area but for so many bytes. The limit word goes back to its start, since an ask is over
// once it is served.
fn empty(machine: &mut Machine<'_>, bytes: u64)
    requires { bytes ≤ 2056 }
    ensures { machine.new ≡ emptied bytes machine.old }
{
    machine.memory.put(DOMAIN_START, YOUNG_START);
    machine.registers[Register::S10 as usize] = YOUNG_TOP - bytes;
}

// Moves all blocks, the young ones being those from `from` up to the young area's top.
#[tactic(auto, unfolding(rv_machine::specs::Frames::frames))]
fn relocate(machine: &mut Machine<'_>, plan: Plan<'_>, from: u64) -> ServiceEnd
    requires near { machine.old.pc < 2 ^ 32 }
    ensures exact { Serves result (with_counts services_counted
        (with_blocks (plan_of plan.entry) machine.old (blocks_at machine.old from))) machine.new }
    ensures kept { StaysUnlessServed result machine.old machine.new }
    ensures place { machine.new.pc ≡ machine.old.pc }
{
    let count = machine.blocks.len();
    match take_young(
        &machine.memory,
        from,
        machine.heap,
        &mut machine.space.young,
        &mut machine.blocks,
    ) {
        Taken::Entered => {}
        Taken::Broken => return ServiceEnd::Stopped(Cause::BadRequest),
        Taken::TooMany => return ServiceEnd::HeapOut,
    }
    let number = machine.services;
    let address = machine.pc + 4;
    let sp = machine.registers[Register::Sp as usize];
    let caller = Caller {
        number,
        base: machine.stack_base,
        heap: machine.heap,
        address,
        sp,
    };
    match attempt(
        plan,
        machine.image,
        caller,
        &mut machine.registers,
        &mut machine.memory,
        &mut machine.space,
        &mut machine.blocks,
    ) {
        Stack::NoFrames => {
            machine.blocks.truncate(count);
            ServiceEnd::Stopped(Cause::BadFrame)
        }
        Stack::BadRoot => {
            machine.blocks.truncate(count);
            ServiceEnd::Stopped(Cause::BadRoot)
        }
        Stack::Fine => {
            machine.services = machine.services.saturating_add(1);
            ServiceEnd::Goes
        }
    }
}

// Whether so many bytes may be asked for.
fn is_request(bytes: u64) -> bool
    ensures { result ≡ is_request bytes }
{
    bytes % 8 == 0 && 16 <= bytes && bytes <= 2056
}
