//! Whether each location of a function is a colour, t0 or one of its slots.
ghost use Rattle.std.specs.Prelude.{◌↔◌, All, Contains, IsTrue};
ghost use Rattle.mach_ir.specs.Placed.{colour_numbers};
ghost use Rattle.lin_ir.specs.Formed.{IsLocation, Locates, AreLocated};
ghost use Rattle.lin_ir.specs.declared.lin.Line.{Line};

use bs_words::Loc;
use lin_ir::{Lin, Line, Spot};
use rv_isa::{COLOURS, Register};

/// T0, the one scratch register that code may name.
const SPARE: u8 = Register::T0 as u8;

fn is_colour(register: u8) -> bool
    ensures { IsTrue result ↔ Contains colour_numbers register }
{
    COLOURS.contains(&register)
}

fn is_location(lin: &Lin, loc: Loc) -> bool
    ensures { IsTrue result ↔ IsLocation lin.now loc }
{
    match loc {
        Loc::Unset => false,
        Loc::Machine(register) => register == SPARE || is_colour(register),
        Loc::Slot(slot) => slot < lin.slots,
    }
}

fn are_locations(lin: &Lin, spots: &[Spot]) -> bool
    ensures { IsTrue result ↔ Locates lin.now spots.now }
{
    spots.iter().all(|spot| is_location(lin, spot.loc))
}

fn args_are_located(lin: &Lin, code: &[Line]) -> bool
    ensures { IsTrue result ↔ All (λ (i : Line). Locates lin.now i.args) code.now }
{
    code.iter()
        .all(|line| are_locations(lin, line.args.as_slice()))
}

fn results_are_located(lin: &Lin, code: &[Line]) -> bool
    ensures { IsTrue result ↔ All (λ (i : Line). Locates lin.now i.results) code.now }
{
    code.iter()
        .all(|line| are_locations(lin, line.results.as_slice()))
}

/// Whether each location that the code names is a colour, t0 or one of the function's slots.
pub fn is_located(lin: &Lin) -> bool
    ensures { IsTrue result ↔ AreLocated lin.now }
{
    let code = lin.code.as_slice();
    args_are_located(lin, code) && results_are_located(lin, code)
}
