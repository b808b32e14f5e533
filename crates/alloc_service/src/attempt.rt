//! The service from the choice of new places on, on the parts of a machine.
ghost use Rattle.std.specs.Prelude.{◌≡◌, ◌≤◌, ◌<◌, ◌/◌, ℕ, ◌%◌, slice_index, map, Some, List};
ghost use Rattle.rv_machine.specs.Hart.{Placed};
ghost use Rattle.std.specs.List.{AllByRecursion};
ghost use Rattle.std.specs.Vec.{vec_capacity};
ghost use Rattle.bs_words.specs.Contents.{contents};
ghost use Rattle.image_form.specs.Image.{IsImage};
ghost use Rattle.image_form.specs.Tables.{desc, tables};
ghost use Rattle.rv_machine.specs.Placement.{bytes_used, new_places, placed_at};
ghost use Rattle.rv_machine.specs.Places.{most_room};
ghost use Rattle.rv_machine.specs.Space.{IsHeapBlock, IsSpace};
ghost use Rattle.alloc_service.specs.Attempt.{IsPrepared, MovesForCaller, Tries, parts, planned};
ghost use Rattle.alloc_service.specs.Forward.{IsLow, IsPlaced, RedirectsFirst, forward};
ghost use Rattle.alloc_service.specs.Plan.{plan_of};

use crate::choice::choose;
use crate::forward::{forget, forward_all};
use crate::moves;
use crate::plan::Plan;
use crate::roots::{Stack, survey};
use crate::stack::descriptor_of;
use image_form::Image;
use rv_machine::{BlockPlace, CODE_START, Memory, Space, Table};

// The table serves twice: a plan is tested by claims in it, which leave it clean, and then the old starts are
// marked with the new ones.
fn prepare(plan: Plan<'_>, number: u64, heap: u64, space: &mut Space, blocks: &[BlockPlace])
    requires space { IsSpace heap space.old }
    requires aligned { heap % 16 ≡ 0 }
    requires most { heap ≤ most_room }
    requires placed { AllByRecursion (IsPlaced heap) blocks.now }
    requires fits { bytes_used blocks.now ≤ heap }
    ensures { IsPrepared heap blocks.now
        (new_places heap number blocks.now (plan_of plan.entry blocks.now)) space.new }
{
    choose(
        plan,
        number,
        &mut space.table,
        heap,
        blocks,
        &mut space.starts,
    );
    forward_all(&mut space.table, blocks, &space.starts);
}

// Between services all marks are 0 and the lists are empty, also after a service that stops.
fn restore(heap: u64, space: &mut Space, blocks: &[BlockPlace])
    requires prepared { (news : List Placed) × IsPrepared heap blocks.now news space.old }
    requires placed { AllByRecursion (IsPlaced heap) blocks.now }
    ensures { IsSpace heap space.new }
{
    forget(&mut space.table, blocks, &space.starts);
    space.starts.clear();
}

/// The caller of a service: the numbers of the machine that the service reads.
#[derive(Clone, Copy)]
pub struct Caller {
    /// How many services have moved blocks before.
    pub number: u64,
    /// The lowest address that the stack pointer may have.
    pub base: u64,
    /// The bytes of each half of the heap.
    pub heap: u64,
    /// The address after the ECALL, to which the innermost frame returns.
    pub address: u64,
    /// The stack pointer.
    pub sp: u64,
}

/// Chooses new places for the blocks and moves them there where the stack is fine; else nothing has
/// changed. The space is left as it was.
pub fn attempt(
    plan: Plan<'_>,
    image: &Image,
    caller: Caller,
    registers: &mut [u64; 32],
    memory: &mut Memory,
    space: &mut Space,
    blocks: &mut Vec<BlockPlace>,
) -> Stack
    requires image { IsImage image.now }
    requires low { 0x38010000 ≤ caller.base }
    requires high { caller.base ≤ 0x40000000 }
    requires space { IsSpace caller.heap space.old }
    requires aligned { caller.heap % 16 ≡ 0 }
    requires most { caller.heap ≤ most_room }
    requires placed { AllByRecursion (IsPlaced caller.heap) blocks.old.items }
    requires far { AllByRecursion IsLow blocks.old.items }
    requires fits { bytes_used blocks.old.items ≤ caller.heap }
    requires table { caller.heap / 16 ≤ vec_capacity blocks.old }
    requires zero { slice_index registers.old 0 ≡ 0 }
    ensures tries { Tries result (tables image.now) caller
        (planned plan.entry caller blocks.old.items)
        (parts registers.old memory.old blocks.old.items)
        (parts registers.new memory.new blocks.new.items) }
    ensures space { IsSpace caller.heap space.new }
    ensures table { caller.heap / 16 ≤ vec_capacity blocks.new }
    ensures zero { slice_index registers.new 0 ≡ 0 }
    ensures kept { result ≡ Stack.Fine → AllByRecursion (IsHeapBlock caller.heap) blocks.new.items }
    ensures bytes { bytes_used blocks.new.items ≤ caller.heap }
{
    let Caller {
        number,
        base,
        heap,
        address,
        sp,
    } = caller;
    prepare(plan, number, heap, space, blocks);
    match survey(image, &space.table, base, registers, memory, address, sp) {
        Stack::NoFrames => {
            restore(heap, space, blocks);
            Stack::NoFrames
        }
        Stack::BadRoot => {
            restore(heap, space, blocks);
            Stack::BadRoot
        }
        Stack::Fine => {
            move_all(image, caller, registers, memory, space, blocks);
            Stack::Fine
        }
    }
}

// Moves the blocks. All is read and redirected while the old starts are in the table, and the words of the
// blocks are gathered before any place is written over, since old and new places may overlap.
fn move_all(
    image: &Image,
    caller: Caller,
    registers: &mut [u64; 32],
    memory: &mut Memory,
    space: &mut Space,
    blocks: &mut Vec<BlockPlace>,
)
    requires image { IsImage image.now }
    requires low { 0x38010000 ≤ caller.base }
    requires high { caller.base ≤ 0x40000000 }
    requires prepared { IsPrepared caller.heap blocks.old.items
        (placed_at blocks.old.items space.old.starts.items) space.old }
    requires most { caller.heap ≤ most_room }
    requires placed { AllByRecursion (IsPlaced caller.heap) blocks.old.items }
    requires far { AllByRecursion IsLow blocks.old.items }
    requires fits { bytes_used blocks.old.items ≤ caller.heap }
    ensures moved { MovesForCaller (tables image.now) caller
        (placed_at blocks.old.items space.old.starts.items)
        (parts registers.old memory.old blocks.old.items)
        (parts registers.new memory.new blocks.new.items) }
    ensures space { IsSpace caller.heap space.new }
    ensures capacity { vec_capacity blocks.new ≡ vec_capacity blocks.old }
    ensures zero { slice_index registers.new 0 ≡ slice_index registers.old 0 }
    ensures places { blocks.new.items ≡ placed_at blocks.old.items space.old.starts.items }
{
    redirect_first(image, &space.table, registers, memory, caller.address);
    moves::gather(memory, &space.table, blocks, &mut space.words);
    moves::redirect_slots(
        memory,
        &space.table,
        image,
        caller.base,
        caller.address,
        caller.sp,
    );
    moves::redirect_roots(memory, &space.table, image);
    moves::vacate(memory, blocks);
    forget(&mut space.table, blocks, &space.starts);
    moves::place(blocks, &space.starts);
    moves::pour(memory, &space.words, blocks);
    space.starts.clear();
    space.words.clear();
}

// Only the first frame names registers, since a call destroys those of its caller.
fn redirect_first(
    image: &Image,
    table: &Table,
    registers: &mut [u64; 32],
    memory: &Memory,
    address: u64,
)
    requires { IsImage image.now }
    ensures exact { (base : ℕ) (sp : ℕ) → RedirectsFirst (forward table.now)
        (map desc (contents image.now.descs)) base memory.now registers.old registers.new
        address sp }
    ensures zero { slice_index registers.new 0 ≡ slice_index registers.old 0 }
{
    if address == CODE_START {
        return;
    }
    if let Some(row) = descriptor_of(image, address) {
        moves::redirect_registers(registers, table, row.entries.as_slice());
    }
}
