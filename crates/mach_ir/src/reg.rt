//! Registers.
ghost use Rattle.std.specs.Prelude.{◌≡◌};
ghost use Rattle.mach_ir.specs.Places.{is_unset_location, same_comp};

use bs_words::{Comp, Loc};

/// A typed register of one function.
///
/// Its number is that of no other register of the function; component, place and origin go
/// with the number. `loc` is `Unset` while its place is open. A register that spilling, splitting
/// or reloading made has the origin of the register from which it was made; the origin of every
/// other one is its own number.
#[derive(Clone, Copy)]
pub struct Reg {
    /// That of no other register of the function.
    pub number: u32,
    /// The component of what it holds.
    pub comp: Comp,
    /// Its place, `Unset` while that is open.
    pub loc: Loc,
    /// The number of the register from which it was made, or its own.
    pub origin: u32,
}

impl Reg {
    /// Whether its place is open.
    pub fn is_open(self) -> bool
        ensures { result ≡ is_unset_location self.loc }
    {
        match self.loc {
            Loc::Unset => true,
            Loc::Machine(_) => false,
            Loc::Slot(_) => false,
        }
    }
}

/// Whether both are one component.
pub fn same_comp(one: Comp, other: Comp) -> bool
    ensures { result ≡ same_comp one other }
{
    match one {
        Comp::Int => matches!(other, Comp::Int),
        Comp::Val => matches!(other, Comp::Val),
        Comp::Addr => matches!(other, Comp::Addr),
        Comp::Float => matches!(other, Comp::Float),
    }
}
