//! Which values fit a type.
ghost use Rattle.std.specs.Prelude.{◌≡◌};
ghost use Rattle.bs_words.specs.Fits.{is_still, fits, misfit};

use bs_words::{DATA_START, Kind, Ty, Value};

/// Whether the value fits the type, where `end` is the first address past the data.
pub fn fits(end: u64, ty: Ty, value: Value) -> bool
    ensures { result ≡ fits end ty value }
{
    match ty {
        Ty::Int => fits_int(value),
        Ty::Val => fits_val(end, value),
        Ty::Addr => true,
        Ty::Never => false,
        Ty::NoValue => false,
    }
}

fn fits_int(value: Value) -> bool
    ensures { result ≡ fits 0 Ty.Int value }
{
    match value {
        Value::Word(_) => true,
        Value::Block { .. } => false,
        Value::Function(_) => true,
    }
}

fn fits_val(end: u64, value: Value) -> bool
    ensures { result ≡ fits end Ty.Val value }
{
    match value {
        Value::Word(word) => is_still(end, word),
        Value::Block { offset, .. } => offset == 0,
        Value::Function(_) => true,
    }
}

fn is_still(end: u64, word: u64) -> bool
    ensures { result ≡ is_still end word }
{
    word % 2 == 1 || (DATA_START <= word && word <= end)
}

/// Why a value that does not fit the type makes a run improper.
pub fn misfit(ty: Ty) -> Kind
    ensures { result ≡ misfit ty }
{
    match ty {
        Ty::Int => Kind::HiddenPointer,
        Ty::Val => Kind::BadValue,
        Ty::Addr => Kind::BadValue,
        Ty::Never => Kind::BadValue,
        Ty::NoValue => Kind::BadValue,
    }
}
