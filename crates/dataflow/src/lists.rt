//! Lists of one or two places.
ghost use Rattle.std.specs.Prelude.{◌≡◌, [], ◌∷◌, IfOk};

use std::alloc::{AllocError, Global};

/// The place alone. The only error is want of memory.
pub fn one_place(alloc: Global, place: u32) -> Result<Vec<u32>, AllocError>
    ensures { IfOk result (λ places. places.items ≡ place ∷ []) }
{
    let mut places = Vec::new(alloc);
    places.push(place)?;
    Ok(places)
}

/// The two places, in order. The only error is want of memory.
pub fn two_places(alloc: Global, first: u32, second: u32) -> Result<Vec<u32>, AllocError>
    ensures { IfOk result (λ places. places.items ≡ first ∷ second ∷ []) }
{
    let mut places = one_place(alloc, first)?;
    places.push(second)?;
    Ok(places)
}
