//! The members of a set, as a list.
ghost use Rattle.std.specs.Prelude.{IfOk};
ghost use Rattle.interfere.specs.Members.{AreMembers};

use bs_bits::Bits;
use std::alloc::{AllocError, Global};

/// The members of the set, rising. The time is that of the members and of the words of the set.
/// The only error is want of memory.
pub fn members_of(alloc: Global, set: &Bits) -> Result<Vec<u32>, AllocError>
    ensures { IfOk result (λ members. AreMembers set.now members.items) }
{
    let size = set.size();
    let mut members = Vec::new(alloc);
    let mut from = 0;
    while from < size {
        match set.next(from) {
            None => {
                from = size;
            }
            Some(member) => {
                members.push(member)?;
                from = member + 1;
            }
        }
    }
    Ok(members)
}
