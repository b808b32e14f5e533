//! Whether each location of a function has a number.
ghost use Rattle.std.specs.Prelude.{◌↔◌, All, IsTrue};
ghost use Rattle.lin_ir.specs.declared.lin.Line.{Line};
ghost use Rattle.lin_laws.specs.Graph.{HasNumber, HaveNumbers, AreNumbered};

use bs_words::Loc;
use lin_ir::{Lin, Line, Spot};

fn has_number(slots: u32, loc: Loc) -> bool
    ensures { IsTrue result ↔ HasNumber slots loc }
{
    match loc {
        Loc::Unset => false,
        Loc::Machine(register) => register < 32,
        Loc::Slot(slot) => slot < slots,
    }
}

fn have_numbers(slots: u32, spots: &[Spot]) -> bool
    ensures { IsTrue result ↔ HaveNumbers slots spots.now }
{
    spots.iter().all(|spot| has_number(slots, spot.loc))
}

fn args_have_numbers(slots: u32, code: &[Line]) -> bool
    ensures { IsTrue result ↔ All (λ (i : Line). HaveNumbers slots i.args) code.now }
{
    code.iter()
        .all(|line| have_numbers(slots, line.args.as_slice()))
}

fn results_have_numbers(slots: u32, code: &[Line]) -> bool
    ensures { IsTrue result ↔ All (λ (i : Line). HaveNumbers slots i.results) code.now }
{
    code.iter()
        .all(|line| have_numbers(slots, line.results.as_slice()))
}

/// Whether every operand and result is a register of the machine or a slot of the function.
pub(crate) fn is_numbered(lin: &Lin) -> bool
    ensures { IsTrue result → AreNumbered lin.now }
{
    let code = lin.code.as_slice();
    args_have_numbers(lin.slots, code) && results_have_numbers(lin.slots, code)
}
