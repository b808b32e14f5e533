//! Wide constants that fit wherever data ends.
ghost use Rattle.std.specs.Prelude.{◌≡◌};
ghost use Rattle.std.specs.List.{list_any};
ghost use Rattle.hoist.specs.Constants.{is_wide, fits_always, constant_of, can_hold, makes_wide};

use bs_words::Comp;
use mach_ir::{Instr, MachOp, Op, Pure, Reg};

/// Whether it does not fit the twelve bits of an immediate.
fn is_wide(word: u64) -> bool
    ensures { result ≡ is_wide word }
{
    2048 <= word && word < 18_446_744_073_709_549_568
}

/// Whether the word is a value of the component wherever data ends.
fn fits_always(comp: Comp, word: u64) -> bool
    ensures { result ≡ fits_always comp word }
{
    match comp {
        Comp::Int => true,
        Comp::Val => word % 2 == 1,
        Comp::Addr => false,
        Comp::Float => false,
    }
}

/// The constant that it makes, if it makes one.
fn constant_of(op: &MachOp) -> Option<u64>
    ensures { result ≡ constant_of op.now }
{
    match op {
        MachOp::Op(Op::Pure(Pure::Constant(word))) => Some(*word),
        MachOp::Op(Op::Pure(Pure::Copy(_))) => None,
        MachOp::Op(Op::Pure(Pure::Symbol(_))) => None,
        MachOp::Op(Op::Pure(Pure::Operator(_, _))) => None,
        MachOp::Op(Op::Access(_)) => None,
        MachOp::Op(Op::Calling(_)) => None,
        MachOp::Op(Op::Leaving(_)) => None,
        MachOp::Mark(_) => None,
    }
}

/// Whether it is one open register in which the word fits.
fn can_hold(word: u64, results: &[Reg]) -> bool
    ensures { result ≡ can_hold word results.now }
{
    if results.len() != 1 {
        return false;
    }
    let reg = results[0];
    reg.is_open() && fits_always(reg.comp, word)
}

/// Whether it makes a wide constant that fits anyway, in an open register.
pub fn makes_wide(instr: &Instr) -> bool
    ensures { result ≡ makes_wide instr.now }
{
    match constant_of(&instr.op) {
        None => false,
        Some(word) => {
            is_wide(word) && (instr.args.is_empty() && can_hold(word, instr.results.as_slice()))
        }
    }
}

/// Whether one of them does.
pub fn has_wide(code: &[Instr]) -> bool
    ensures { result ≡ list_any makes_wide code.now }
{
    code.iter().any(|instr| makes_wide(instr))
}
