//! Where the value of a node goes, and whether that is the end of the function.
ghost use Rattle.std.specs.Prelude.{◌≡◌, false};
ghost use Rattle.selection_rules.specs.Select.{comp_of_type, fresh_register, inner_dest, inner_valued, is_no_value};
ghost use Rattle.mach_ir.specs.declared.reg.Reg.{Reg};

use bs_words::{Comp, Loc, Ty};
use mach_ir::Reg;

/// Where the value of a node goes.
#[derive(Clone, Copy)]
pub struct Place {
    /// Whether the value of the function is wanted, where a tail call gives it.
    pub valued: bool,
    /// Whether nothing follows the node in the function.
    pub tail: bool,
    /// The register of the value.
    pub dest: Reg,
    /// The numbers of the node's own registers and labels begin with this one.
    pub base: u32,
}

/// A node: its type, and where its value goes.
#[derive(Clone, Copy)]
pub struct Node {
    /// The type of the node.
    pub ty: Ty,
    /// Where its value goes.
    pub place: Place,
}

/// An operand: its value goes to this register, and its numbers begin with `base`.
pub fn operand_at(dest: Reg, base: u32) -> Place
    ensures { result ≡ record { valued = false; tail = false; dest = dest; base = base } }
{
    Place {
        valued: false,
        tail: false,
        dest,
        base,
    }
}

impl Node {
    /// Where the value of a part goes that the node takes the value of.
    pub fn dest(self) -> Reg
        ensures { result ≡ inner_dest self.ty self.place.base self.place.dest }
    {
        match self.ty {
            Ty::NoValue => fresh(self.place.base, Ty::Addr),
            Ty::Never | Ty::Int | Ty::Val | Ty::Addr => self.place.dest,
        }
    }

    /// Whether the value of such a part is wanted, where a tail call gives it.
    pub fn is_valued(self) -> bool
        ensures { result ≡ inner_valued self.place.valued self.ty }
    {
        match self.ty {
            Ty::NoValue => false,
            Ty::Never | Ty::Int | Ty::Val | Ty::Addr => self.place.valued,
        }
    }

    /// The place of such a part whose numbers begin with `base`.
    pub fn part(self, base: u32) -> Place
        ensures { result ≡ record {
          valued = inner_valued self.place.valued self.ty;
          tail = self.place.tail;
          dest = inner_dest self.ty self.place.base self.place.dest;
          base = base;
        } }
    {
        Place {
            valued: self.is_valued(),
            tail: self.place.tail,
            dest: self.dest(),
            base,
        }
    }
}

/// The component of a register for a value of this type.
fn comp_of(ty: Ty) -> Comp
    ensures { result ≡ comp_of_type ty }
{
    match ty {
        Ty::Val => Comp::Val,
        Ty::Addr => Comp::Addr,
        Ty::Int | Ty::Never | Ty::NoValue => Comp::Int,
    }
}

/// A register of this number that no convention places, for a value of this type.
pub fn fresh(number: u32, ty: Ty) -> Reg
    ensures { result ≡ fresh_register number ty }
{
    Reg {
        number,
        comp: comp_of(ty),
        loc: Loc::Unset,
        origin: number,
    }
}

/// Whether it is the type of no value.
pub fn is_no_value(ty: Ty) -> bool
    ensures { result ≡ is_no_value ty }
{
    match ty {
        Ty::NoValue => true,
        Ty::Never | Ty::Int | Ty::Val | Ty::Addr => false,
    }
}
