//! What lines read and write, by the numbers of locations.
ghost use Rattle.std.specs.Prelude.{◌≡◌, ◌+◌, ◌++◌, ◌<◌, ◌^◌, map, IfOk};
ghost use Rattle.bs_words.specs.Contents.{contents};
ghost use Rattle.mach_ir.specs.Meaning.{destroyed_by_operation};
ghost use Rattle.lin_ir.specs.Meaning.{destroyed_by};
ghost use Rattle.lin_laws.specs.Numbers.{number_of_location, is_val_comp, val_numbers, consecutive_from, destroyed_numbers, written_numbers};
ghost use Rattle.lin_flow.specs.Sizes.{HaveSmall};

use bs_words::{Comp, List, Loc};
use lin_ir::{Flow, LinOp, Line, Spot};
use mach_ir::{Calling, Op};
use std::alloc::{AllocError, Global};

/// How many registers the machine has. The numbers of slots come after theirs.
pub const REGISTERS: u32 = 32;

fn is_val(comp: Comp) -> bool
    ensures { result ≡ is_val_comp comp }
{
    match comp {
        Comp::Int => false,
        Comp::Val => true,
        Comp::Addr => false,
        Comp::Float => false,
    }
}

/// The number of a location, which has to fit.
pub fn number_of(loc: Loc) -> u32
    requires { number_of_location loc < 2 ^ 32 }
    ensures { result ≡ number_of_location loc }
{
    match loc {
        Loc::Unset => 0,
        Loc::Machine(register) => u32::from(register),
        Loc::Slot(slot) => slot + REGISTERS,
    }
}

/// The number above those of all locations, where there are so many slots.
pub fn bound_of(slots: u32) -> u32
    requires { slots + 32 < 2 ^ 32 }
    ensures { result ≡ slots + 32 }
{
    slots + REGISTERS
}

/// The numbers of the locations that are read as val. The only error is want of memory.
pub fn reads_of(alloc: Global, args: &[Spot]) -> Result<List<u32>, AllocError>
    requires { HaveSmall args.now }
    ensures { IfOk result (λ ns. contents ns ≡ val_numbers args.now) }
{
    let mut numbers = Vec::new(alloc);
    for spot in args {
        if is_val(spot.comp) {
            numbers.push(number_of(spot.loc))?;
        }
    }
    Ok(List::from_vec(numbers))
}

fn push_all(numbers: &mut Vec<u32>, spots: &[Spot]) -> Result<(), AllocError>
    requires { HaveSmall spots.now }
    ensures { IfOk result (λ _.
        numbers.new.items ≡ numbers.old.items ++ map (λ s. number_of_location s.loc) spots.now) }
{
    for spot in spots {
        numbers.push(number_of(spot.loc))?;
    }
    Ok(())
}

/// Adds so many numbers from `first` on.
fn push_run(numbers: &mut Vec<u32>, first: u32, count: u32) -> Result<(), AllocError>
    requires { first + count < 2 ^ 32 }
    ensures { IfOk result (λ _. numbers.new.items ≡ numbers.old.items ++ consecutive_from first count) }
{
    for k in 0..count {
        numbers.push(first + k)?;
    }
    Ok(())
}

/// Adds every register of the machine.
fn push_everything(numbers: &mut Vec<u32>) -> Result<(), AllocError>
    ensures { IfOk result (λ _. numbers.new.items ≡ numbers.old.items ++ consecutive_from 0 32) }
{
    push_run(numbers, 0, 32)
}

/// Adds the registers that an external call destroys: a0 to a7 and t3 to t6.
fn push_temporaries(numbers: &mut Vec<u32>) -> Result<(), AllocError>
    ensures { IfOk result (λ _. numbers.new.items ≡ numbers.old.items ++ (consecutive_from 10 8 ++ consecutive_from 28 4)) }
{
    push_run(numbers, 10, 8)?;
    push_run(numbers, 28, 4)
}

fn push_destroyed_by_call(numbers: &mut Vec<u32>, calling: &Calling) -> Result<(), AllocError>
    ensures { IfOk result (λ _.
        numbers.new.items ≡ numbers.old.items ++ destroyed_numbers (destroyed_by_operation
        (Op.Calling calling.now))) }
{
    match calling {
        Calling::Call { .. } => push_everything(numbers),
        Calling::TailCall { .. } => push_everything(numbers),
        Calling::External { .. } => push_temporaries(numbers),
    }
}

fn push_destroyed_by_op(numbers: &mut Vec<u32>, op: &Op) -> Result<(), AllocError>
    ensures { IfOk result (λ _.
        numbers.new.items ≡ numbers.old.items ++ destroyed_numbers (destroyed_by_operation
        op.now)) }
{
    match op {
        Op::Pure(_) => Ok(()),
        Op::Access(_) => Ok(()),
        Op::Calling(calling) => push_destroyed_by_call(numbers, calling),
        Op::Leaving(_) => Ok(()),
    }
}

fn push_destroyed_by_flow(numbers: &mut Vec<u32>, flow: &Flow) -> Result<(), AllocError>
    ensures { IfOk result (λ _. numbers.new.items ≡ numbers.old.items ++ destroyed_numbers
        (destroyed_by (LinOp.Flow flow.now))) }
{
    match flow {
        Flow::Label(_) => Ok(()),
        Flow::Jump(_) => Ok(()),
        Flow::Exit(_) => Ok(()),
        Flow::Branch { test: _, label: _ } => Ok(()),
        Flow::Switch(_) => Ok(()),
        Flow::PushTrap(_) => Ok(()),
        Flow::PopTrap => Ok(()),
        Flow::EnterTrap => push_everything(numbers),
    }
}

fn push_destroyed(numbers: &mut Vec<u32>, op: &LinOp) -> Result<(), AllocError>
    ensures { IfOk result (λ _. numbers.new.items ≡ numbers.old.items ++ destroyed_numbers
        (destroyed_by op.now)) }
{
    match op {
        LinOp::Op(op) => push_destroyed_by_op(numbers, op),
        LinOp::Flow(flow) => push_destroyed_by_flow(numbers, flow),
    }
}

/// The numbers of the locations that a line writes: those of its results, and the registers that it
/// destroys. The only error is want of memory.
pub fn writes_of(alloc: Global, line: &Line) -> Result<List<u32>, AllocError>
    requires { HaveSmall line.now.results }
    ensures { IfOk result (λ ns. contents ns ≡ written_numbers line.now) }
{
    let mut numbers = Vec::new(alloc);
    push_all(&mut numbers, line.results.as_slice())?;
    push_destroyed(&mut numbers, &line.op)?;
    Ok(List::from_vec(numbers))
}
