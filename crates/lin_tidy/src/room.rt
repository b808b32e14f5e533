//! Whether there are numbers for a function that is made tidy.
ghost use Rattle.std.specs.Prelude.{IsTrue};
ghost use Rattle.lin_tidy.specs.Sizes.{HasTidyRoom};

use crate::turning::first_free;
use lin_flow::lines::REGISTERS;
use lin_ir::Lin;

/// Fewer lines than so many have numbers of 32 bits when each becomes four, the most that turning loops
/// makes of one.
const LINES: usize = 1073741824;

/// Whether there are numbers for the function's labels and slots, and for the lines that its lines become.
pub fn has_room(lin: &Lin) -> bool
    ensures { IsTrue result → HasTidyRoom lin.now }
{
    let lines = lin.code.len();
    if lines >= LINES {
        return false;
    }
    let free = first_free(lin.code.as_slice());
    if free > u32::MAX as usize {
        return false;
    }
    if free + 2 * lines >= u32::MAX as usize {
        return false;
    }
    lin.slots <= u32::MAX - REGISTERS
}
