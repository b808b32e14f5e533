//! Which slots occur in a function, and the numbers that they get.
//!
//! Each gets the number of those that occur below it, through a table up to the greatest one.
ghost use Rattle.std.specs.Prelude.{◌≡◌, ◌<◌, ◌↔◌, ◌^◌, ◌++◌, suc, [], length, IfOk, IsTrue};
ghost use Rattle.linearise_rules.specs.Lowered.{slots_of_regs, slots_of_function, limit_above};
ghost use Rattle.linearise.specs.Numbers.{AreSlotFlags, IsTable, running};

use bs_words::Loc;
use mach_ir::{Mach, Reg};
use std::alloc::{AllocError, Global};

/// Adds the numbers of the slots in which registers are, in order.
fn gather_regs(regs: &[Reg], slots: &mut Vec<u32>) -> Result<(), AllocError>
    ensures { IfOk result (λ _. slots.new.items ≡ slots.old.items ++ slots_of_regs regs.now []) }
{
    for reg in regs {
        match reg.loc {
            Loc::Slot(slot) => slots.push(slot)?,
            Loc::Machine(_register) => {}
            Loc::Unset => {}
        }
    }
    Ok(())
}

/// The numbers of the slots that occur in a function, some of them more than once.
/// The only error is want of memory.
pub fn gather(alloc: Global, mach: &Mach) -> Result<Vec<u32>, AllocError>
    ensures { IfOk result (λ slots. slots.items ≡ slots_of_function mach.now) }
{
    let mut slots = Vec::new(alloc);
    gather_regs(mach.params.as_slice(), &mut slots)?;
    for instr in mach.code.as_slice() {
        gather_regs(instr.args.as_slice(), &mut slots)?;
        gather_regs(instr.results.as_slice(), &mut slots)?;
    }
    Ok(slots)
}

/// The least number above all these.
pub fn limit(slots: &[u32]) -> usize
    ensures { result ≡ limit_above slots.now }
{
    let mut limit = 0;
    for slot in slots {
        let above = *slot as usize + 1;
        if limit < above {
            limit = above;
        }
    }
    limit
}

/// For each number below `limit`, whether it is among the slots.
fn flags(alloc: Global, slots: &[u32], limit: usize) -> Result<Vec<bool>, AllocError>
    requires { limit ≡ limit_above slots.now }
    ensures { IfOk result (λ flags. AreSlotFlags slots.now flags.items) }
{
    let mut flags = vec![in alloc; false; limit]?;
    for slot in slots {
        flags[*slot as usize] = true;
    }
    Ok(flags)
}

/// One more.
fn one_more(count: u32) -> u32
    requires { suc count < 2 ^ 32 }
    ensures { result ≡ suc count }
{
    count + 1
}

/// Before each flag and after the last, how many are set before it.
fn counts(alloc: Global, flags: &[bool]) -> Result<Vec<u32>, AllocError>
    requires { length flags.now < 2 ^ 32 }
    ensures { IfOk result (λ numbers. numbers.items ≡ running 0 flags.now) }
{
    let mut numbers = Vec::with_capacity(alloc, flags.len() + 1)?;
    let mut count = 0;
    for flag in flags {
        numbers.push(count)?;
        if *flag {
            count = one_more(count);
        }
    }
    numbers.push(count)?;
    Ok(numbers)
}

/// Whether the slots of a function, counted up to the greatest, have numbers.
/// The only error is want of memory.
pub fn has_room(alloc: Global, mach: &Mach) -> Result<bool, AllocError>
    ensures { IfOk result (λ yes. IsTrue yes ↔ limit_above (slots_of_function mach.now) < 2 ^ 32) }
{
    let slots = gather(alloc, mach)?;
    Ok(limit(slots.as_slice()) <= u32::MAX as usize)
}

/// How many of the slots, each counted once, are below each number up to their limit.
/// The only error is want of memory.
pub fn table(alloc: Global, slots: &[u32], limit: usize) -> Result<Vec<u32>, AllocError>
    requires limit { limit ≡ limit_above slots.now }
    requires small { limit < 2 ^ 32 }
    ensures { IfOk result (λ numbers. IsTable slots.now numbers.items) }
{
    let flags = flags(alloc, slots, limit)?;
    let numbers = counts(alloc, flags.as_slice())?;
    Ok(numbers)
}
