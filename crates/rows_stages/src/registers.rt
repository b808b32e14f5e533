//! The registers of the rows, and where Linear has them.
use bs_words::{Comp, Loc};
use lin_ir::Spot;
use mach_ir::Reg;
use rv_isa::Register;

pub(crate) const A: Reg = Reg {
    number: 0,
    comp: Comp::Int,
    loc: Loc::Unset,
    origin: 0,
};

pub(crate) const B: Reg = Reg {
    number: 1,
    comp: Comp::Val,
    loc: Loc::Unset,
    origin: 1,
};

pub(crate) const C: Reg = Reg {
    number: 12,
    comp: Comp::Addr,
    loc: Loc::Unset,
    origin: 12,
};

pub(crate) const SECOND: Reg = Reg {
    number: 1,
    comp: Comp::Int,
    loc: Loc::Unset,
    origin: 1,
};

pub(crate) const THIRD: Reg = Reg {
    number: 2,
    comp: Comp::Int,
    loc: Loc::Unset,
    origin: 2,
};

pub(crate) const RAISED: Reg = Reg {
    number: 3,
    comp: Comp::Val,
    loc: Loc::Unset,
    origin: 3,
};

pub(crate) const FIXED: Reg = Reg {
    number: 3,
    comp: Comp::Int,
    loc: Loc::Machine(Register::A0 as u8),
    origin: 3,
};

pub(crate) const SPILLED: Reg = Reg {
    number: 4,
    comp: Comp::Val,
    loc: Loc::Slot(13),
    origin: 13,
};

/// A register that is placed in a register of the machine.
pub(crate) fn machine(number: u8) -> Reg {
    Reg {
        number: 3,
        comp: Comp::Int,
        loc: Loc::Machine(number),
        origin: 3,
    }
}

/// The location of a register. Those whose place is open go to registers of the machine.
pub(crate) fn placed(reg: Reg) -> Spot {
    let loc = match reg.loc {
        Loc::Unset => Loc::Machine(if reg.number < 8 {
            Register::S2 as u8
        } else {
            Register::T3 as u8
        }),
        Loc::Machine(number) => Loc::Machine(number),
        Loc::Slot(slot) => Loc::Slot(slot),
    };
    Spot {
        loc,
        comp: reg.comp,
    }
}
