//! Which new starts a service gives to the blocks.
ghost use Rattle.std.specs.Prelude.{◌≡◌, ◌≢◌, ◌≤◌, [], true, false, length};
ghost use Rattle.std.specs.List.{AllByRecursion, list_all};
ghost use Rattle.std.specs.Vec.{vec_capacity};
ghost use Rattle.rv_machine.specs.Marks.{IsClean};
ghost use Rattle.rv_machine.specs.Placement.{bytes_used, is_in_heap, new_places, placed_at};
ghost use Rattle.rv_machine.specs.Places.{most_room};
ghost use Rattle.alloc_service.specs.Forward.{IsSmall};
ghost use Rattle.alloc_service.specs.Plan.{plan_of};

use crate::claims::is_valid;
use crate::plan::Plan;
use crate::starts::{add_spaced, fill_drawn, half_start};
use rv_machine::{BlockPlace, Table};

/// Fills the new starts of the blocks at the service of that number: those of the plan where it is valid,
/// else packed.
pub fn choose(
    plan: Plan<'_>,
    number: u64,
    table: &mut Table,
    heap: u64,
    blocks: &[BlockPlace],
    starts: &mut Vec<u64>,
)
    requires clean { IsClean table.old }
    requires of_heap { table.old.heap ≡ heap }
    requires most { heap ≤ most_room }
    requires small { AllByRecursion IsSmall blocks.now }
    requires fits { bytes_used blocks.now ≤ heap }
    requires empty { starts.old.items ≡ [] }
    requires room { length blocks.now ≤ vec_capacity starts.old }
    ensures lengths { length starts.new.items ≡ length blocks.now }
    ensures chosen { placed_at blocks.now starts.new.items
        ≡ new_places heap number blocks.now (plan_of plan.entry blocks.now) }
    ensures inside { list_all (is_in_heap heap) (placed_at blocks.now starts.new.items) ≡ true }
    ensures clean { IsClean table.new }
    ensures same_heap { table.new.heap ≡ heap }
    ensures capacity { vec_capacity starts.old ≤ vec_capacity starts.new }
{
    if fill(plan, blocks, starts) && is_valid(table, heap, blocks, starts) {
        return;
    }
    starts.clear();
    add_spaced(starts, 0, half_start(number % 2), blocks);
}

// Fills the plan's starts, or reports that it has not one for each block.
fn fill(plan: Plan<'_>, blocks: &[BlockPlace], starts: &mut Vec<u64>) -> bool
    requires empty { starts.old.items ≡ [] }
    requires used { bytes_used blocks.now ≤ most_room }
    requires room { length blocks.now ≤ vec_capacity starts.old }
    ensures filled { result ≡ true → starts.new.items ≡ plan_of plan.entry blocks.now }
    ensures unequal { result ≡ false → length (plan_of plan.entry blocks.now) ≢ length blocks.now }
    ensures capacity { vec_capacity starts.old ≤ vec_capacity starts.new }
{
    match plan {
        Plan::Packed => blocks.is_empty(),
        Plan::Starts(planned) => {
            if planned.len() != blocks.len() {
                return false;
            }
            copy(planned, starts);
            true
        }
        Plan::Drawn { word } => {
            fill_drawn(starts, word, blocks);
            true
        }
    }
}

fn copy(planned: &[u64], starts: &mut Vec<u64>)
    requires empty { starts.old.items ≡ [] }
    requires room { length planned.now ≤ vec_capacity starts.old }
    ensures filled { starts.new.items ≡ planned.now }
    ensures capacity { vec_capacity starts.old ≤ vec_capacity starts.new }
{
    let _ = starts.extend_from_slice(planned);
}
