//! What the machine does where its counts are not at their ends.
//!
//! Definitions count instructions and services without end. The code's counts stay at the end of their
//! type, and its contracts say so.
ghost use Rattle.std.specs.Prelude.{◌≡◌, ◌<◌, ◌≤◌, ◌-◌, ◌^◌, suc, true};
ghost use Rattle.alloc_service.specs.Plan.{Serves, plan_of};
ghost use Rattle.rv_machine.specs.Allocation.{allocation_served};
ghost use Rattle.rv_machine.specs.FrameCalls.{collected, has_trap_frame, raised};
ghost use Rattle.rv_machine.specs.Hart.{hart};
ghost use Rattle.rv_machine.specs.Services.{cleared, returned_with};
ghost use Rattle.rv_machine.specs.Step.{IsNear, StaysUnlessRetired, next_of, registers_after};

use alloc_service::{Plan, ServiceEnd};
use rv_machine::{Machine, StepEnd};

/// One instruction.
#[inline]
pub fn step(machine: &mut Machine<'_>) -> StepEnd
    requires room { machine.old.retired < 2 ^ 64 - 1 }
    ensures exact { next_of result machine.new ≡ hart machine.old }
    ensures kept { StaysUnlessRetired result machine.old machine.new }
    ensures near { IsNear result machine.new }
    ensures retired { machine.new.retired ≤ suc machine.old.retired }
{
    machine.step()
}

/// The allocation service.
pub fn count_allocation(machine: &mut Machine<'_>, plan: Plan<'_>) -> ServiceEnd
    requires near { machine.old.pc < 2 ^ 32 }
    requires room { machine.old.retired < 2 ^ 64 - 1 }
    requires services { machine.old.services < 2 ^ 64 - 1 }
    ensures exact { Serves result (allocation_served (plan_of plan.entry) machine.old) machine.new }
    ensures retired { machine.new.retired ≤ suc machine.old.retired }
{
    alloc_service::serve_allocation(machine, plan)
}

/// The move of the blocks at a frame call.
pub fn count_frame_call(machine: &mut Machine<'_>, plan: Plan<'_>) -> ServiceEnd
    requires near { machine.old.pc < 2 ^ 32 }
    requires services { machine.old.services < 2 ^ 64 - 1 }
    ensures exact { Serves result (collected (plan_of plan.entry) machine.old) machine.new }
    ensures place { machine.new.pc ≡ machine.old.pc }
    ensures retired { machine.new.retired ≡ machine.old.retired }
{
    alloc_service::serve_frame_call(machine, plan)
}

/// Goes on after an external call.
pub fn finish_call(machine: &mut Machine<'_>, answer: Option<u64>)
    requires near { machine.old.pc < 2 ^ 32 }
    requires room { machine.old.retired < 2 ^ 64 - 1 }
    ensures exact { machine.new
        ≡ returned_with (registers_after answer machine.old.registers) machine.old }
    ensures retired { machine.new.retired ≡ suc machine.old.retired }
{
    machine.finish_call(answer);
}

/// Goes on after a frame call that raises.
pub fn raise(machine: &mut Machine<'_>, value: u64)
    requires trap { has_trap_frame machine.old ≡ true }
    requires room { machine.old.retired < 2 ^ 64 - 1 }
    ensures exact { machine.new ≡ raised value (cleared machine.old) }
    ensures retired { machine.new.retired ≡ suc machine.old.retired }
{
    machine.raise(value);
}
