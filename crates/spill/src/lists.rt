//! Lists of numbers.
ghost use Rattle.std.specs.Prelude.{◌≡◌, ◌++◌, IfOk};

use std::alloc::{AllocError, Global};

/// The numbers of the one and then of the other. The only error is want of memory.
pub fn joined(alloc: Global, one: &[u32], other: &[u32]) -> Result<Vec<u32>, AllocError>
    ensures { IfOk result (λ made. made.items ≡ one.now ++ other.now) }
{
    let mut made = Vec::new(alloc);
    made.extend_from_slice(one)?;
    made.extend_from_slice(other)?;
    Ok(made)
}

/// The same numbers. The only error is want of memory.
pub fn copy_of(alloc: Global, numbers: &[u32]) -> Result<Vec<u32>, AllocError>
    ensures { IfOk result (λ made. made.items ≡ numbers.now) }
{
    let mut made = Vec::new(alloc);
    made.extend_from_slice(numbers)?;
    Ok(made)
}
