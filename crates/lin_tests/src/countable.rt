//! Whether there are numbers for the lines and slots of a function.
ghost use Rattle.std.specs.Prelude.{◌↔◌, IsTrue};
ghost use Rattle.lin_flow.specs.Sizes.{IsCountable};

use lin_flow::lines::REGISTERS;
use lin_ir::Lin;

/// Whether there are numbers for the lines of the function, and for its slots after those of the
/// registers.
pub fn is_countable(lin: &Lin) -> bool
    ensures { IsTrue result ↔ IsCountable lin.now }
{
    lin.code.len() <= u32::MAX as usize && lin.slots <= u32::MAX - REGISTERS
}
