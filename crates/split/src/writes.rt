//! The writes of the registers whose places are open.
ghost use Rattle.std.specs.Prelude.{◌≡◌, ◌<◌, ◌++◌, ◌^◌, [], All, length, IfOk};
ghost use Rattle.mach_ir.specs.Sizes.{number_limit};
ghost use Rattle.mach_ir.specs.Walks.{IsRegister};
ghost use Rattle.mach_ir.specs.declared.reg.Reg.{Reg};
ghost use Rattle.split_rules.specs.Order.{open_writes, writes_of};
ghost use Rattle.split.specs.Writes.{listed_writes, writes_of_number, is_first_write, is_at, find_at, HasOnlyNewMember, IsGrouped, AreWrites};

use mach_ir::{Mach, Reg};
use split_rules::Write;
use std::alloc::{AllocError, Global};

/// Indexes of writes, in their order.
#[derive(Drop)]
pub struct WriteGroup {
    /// The indexes, rising.
    pub members: Vec<u32>,
}

/// All writes of open registers, and for each number the indexes of its writes.
#[derive(Drop)]
pub struct Writes {
    /// The writes: those of the parameters, then those of the code in the order of the text.
    pub all: Vec<Write>,
    /// For each number the indexes of its writes.
    pub groups: Vec<WriteGroup>,
}

fn push_open(writes: &mut Vec<Write>, left: u32, regs: &[Reg]) -> Result<(), AllocError>
    ensures { IfOk result (λ _. writes.new.items ≡ writes.old.items ++ open_writes left regs.now) }
{
    for reg in regs {
        if reg.is_open() {
            writes.push(Write {
                left,
                number: reg.number,
            })?;
        }
    }
    Ok(())
}

/// The writes of open registers: of the parameters, and of the results in the order of the text.
fn all_writes(alloc: Global, mach: &Mach) -> Result<Vec<Write>, AllocError>
    requires { length mach.now.code < 2 ^ 32 }
    ensures { IfOk result (λ writes. writes.items ≡ writes_of mach.now) }
{
    let code = mach.code.as_slice();
    let mut writes = Vec::new(alloc);
    let mut left = code.len() as u32;
    push_open(&mut writes, left, mach.params.as_slice())?;
    for instr in code {
        left -= 1;
        push_open(&mut writes, left, instr.results.as_slice())?;
    }
    Ok(writes)
}

/// Adds a member to a group.
fn add_member(groups: &mut Vec<WriteGroup>, number: u32, member: u32) -> Result<(), AllocError>
    requires { number < length groups.old.items }
    ensures { IfOk result (λ _. HasOnlyNewMember groups.old.items groups.new.items number member) }
{
    let group = &mut groups[number as usize];
    group.members.push(member)?;
    Ok(())
}

fn no_members(alloc: Global, free: u32) -> Result<Vec<WriteGroup>, AllocError>
    ensures { IfOk result (λ groups. IsGrouped [] free groups.items) }
{
    let mut groups = Vec::with_capacity(alloc, free as usize)?;
    for _number in 0..free {
        groups.push(WriteGroup {
            members: Vec::new(alloc),
        })?;
    }
    Ok(groups)
}

/// For each number below `free` the indexes of its writes.
fn groups_of(alloc: Global, writes: &[Write], free: u32) -> Result<Vec<WriteGroup>, AllocError>
    requires numbers { All (λ (x : Write). x.number < free) writes.now }
    requires few { length writes.now < 2 ^ 32 }
    ensures { IfOk result (λ groups. IsGrouped writes.now free groups.items) }
{
    let mut groups = no_members(alloc, free)?;
    for (index, write) in writes.iter().enumerate() {
        add_member(&mut groups, write.number, index as u32)?;
    }
    Ok(groups)
}

impl Writes {
    /// The writes of a function, whose registers have numbers below `free`.
    /// The only error is want of memory.
    pub fn of_function(alloc: Global, mach: &Mach, free: u32) -> Result<Writes, AllocError>
        requires few { length mach.now.code < 2 ^ 32 }
        requires writes { length (writes_of mach.now) < number_limit }
        requires numbers { (r : Reg) → IsRegister mach.now r → r.number < free }
        ensures { IfOk result (AreWrites mach.now free) }
    {
        let all = all_writes(alloc, mach)?;
        let groups = groups_of(alloc, all.as_slice(), free)?;
        Ok(Writes { all, groups })
    }

    /// The indexes of the writes of the number.
    pub fn members(&self, number: u32) -> &[u32]
        ensures { result.now ≡ writes_of_number self.now number }
    {
        match self.groups.get(number as usize) {
            None => &[],
            Some(group) => group.members.as_slice(),
        }
    }

    /// Whether it is the index of the first write of the number.
    pub fn is_first(&self, number: u32, index: u32) -> bool
        ensures { result ≡ is_first_write (writes_of_number self.now number) index }
    {
        match self.members(number).first() {
            None => false,
            Some(first) => *first == index,
        }
    }

    /// Whether so many instructions come after the write.
    fn is_at(&self, index: u32, left: u32) -> bool
        ensures { result ≡ is_at (listed_writes self.now) index left }
    {
        match self.all.get(index as usize) {
            None => false,
            Some(write) => write.left == left,
        }
    }

    /// The write of the number after which so many instructions come.
    pub fn find_at(&self, left: u32, number: u32) -> Option<u32>
        ensures { result ≡ find_at (listed_writes self.now) left (writes_of_number self.now number) }
    {
        for index in self.members(number) {
            if self.is_at(*index, left) {
                return Some(*index);
            }
        }
        None
    }
}
