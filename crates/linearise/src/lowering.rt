//! The lines of a function.
ghost use Rattle.std.specs.Prelude.{◌≡◌, ◌<◌, ◌^◌, IfOk};
ghost use Rattle.linearise_rules.specs.Lowered.{slots_of_function, limit_above, lowered_code, lowered};
ghost use Rattle.linearise.specs.Numbers.{number_of_slot};

use crate::backward::Backward;
use crate::copies::copy_name;
use crate::lines::push_instr;
use crate::slots::{gather, limit, table};
use crate::spots::spots;
use lin_ir::{Lin, Line};
use mach_ir::{Instr, Mach, Seq};
use std::alloc::{AllocError, Global};

/// The lines of a code.
fn lower_code(alloc: Global, numbers: &[u32], code: &[Instr]) -> Result<Seq<Line>, AllocError>
    ensures { IfOk result (λ lines. lines ≡ lowered_code (number_of_slot numbers.now) code.now) }
{
    let mut left = code.len();
    let mut lines = Backward::with_room(alloc, left)?;
    while left > 0 {
        left -= 1;
        push_instr(alloc, numbers, &code[left], &mut lines)?;
    }
    Ok(lines.into_seq())
}

/// The entry of the table at an index, or 0 where it has none.
fn entry(numbers: &[u32], index: usize) -> u32
    ensures { result ≡ number_of_slot numbers.now index }
{
    match numbers.get(index) {
        Some(number) => *number,
        None => 0,
    }
}

/// The lines of a function whose registers have places: operations as they are, structures as labels,
/// jumps and branches, tries as traps. The slots that occur are numbered from 0, in their order.
///
/// A register with no place has no place there either. The time is linear in the function and in its
/// greatest slot. The only error is want of memory.
pub fn lower(alloc: Global, mach: &Mach) -> Result<Lin, AllocError>
    requires { limit_above (slots_of_function mach.now) < 2 ^ 32 }
    ensures { IfOk result (λ lin. lin ≡ lowered mach.now) }
{
    let slots = gather(alloc, mach)?;
    let limit = limit(slots.as_slice());
    let numbers = table(alloc, slots.as_slice(), limit)?;
    let name = copy_name(&mach.name)?;
    let params = spots(alloc, numbers.as_slice(), mach.params.as_slice())?;
    let code = lower_code(alloc, numbers.as_slice(), mach.code.as_slice())?;
    let slots = entry(numbers.as_slice(), limit);
    Ok(Lin {
        name,
        params,
        result: mach.result,
        slots,
        code,
    })
}
