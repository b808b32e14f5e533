//! What a node gives or raises, or why the run is improper.
ghost use Rattle.std.specs.Prelude.{◌≡◌, None, Some, cond, nat_lt};
ghost use Rattle.bs_words.specs.declared.types.Ty.TheVariants as ty;
ghost use Rattle.bs_words.specs.Operators.{word_in};
ghost use Rattle.cmm_meaning.specs.State as state;
ghost use Rattle.cmm_meaning.specs.Evaluation as evaluation;
ghost use Rattle.cmm_meaning.specs.Evaluation.{of_type, tested, Gives, Raises, proper, bound_error, looked_up};
ghost use Rattle.eval_frames.specs.Filled.{standing};

use crate::frame::Now;
use crate::world::Stop;
use bs_words::{DATA_START, Kind, Ty, Value};
use cmm_values::{fits, misfit, word_in};

/// A run that is improper.
pub fn not_proper<'a>(kind: Kind) -> Now<'a>
    ensures { result ≡ Now.Stops (Stop.NotProper kind) }
{
    Now::Stops(Stop::NotProper(kind))
}

/// What a node of this type gives; where the type is no value, a value is dropped.
pub fn of_type<'a>(end: u64, ty: Ty, value: Option<Value>) -> Now<'a>
    ensures { (s : evaluation.Surroundings) → (h : state.Here) → (w : state.World) →
        standing s result h w ≡ of_type end ty value h w }
{
    match ty {
        Ty::NoValue => Now::Gives(None),
        Ty::Never | Ty::Int | Ty::Val | Ty::Addr => match value {
            Some(value) => tested(end, ty, value),
            None => not_proper(Kind::BadValue),
        },
    }
}

/// The value, which must fit the type.
fn tested<'a>(end: u64, ty: Ty, value: Value) -> Now<'a>
    ensures { (s : evaluation.Surroundings) → (h : state.Here) → (w : state.World) →
        standing s result h w ≡ tested end ty value w (Gives (Some value) h w) }
{
    if fits(end, ty, value) {
        Now::Gives(Some(value))
    } else {
        not_proper(misfit(ty))
    }
}

/// A value is raised, which must fit val.
pub fn raised<'a>(end: u64, value: Value) -> Now<'a>
    ensures { (s : evaluation.Surroundings) → (h : state.Here) → (w : state.World) →
        standing s result h w ≡ tested end ty.Val value w (Raises value h w) }
{
    if fits(end, Ty::Val, value) {
        Now::Raises(value)
    } else {
        not_proper(misfit(Ty::Val))
    }
}

/// The value that is there, or why there must be one.
pub fn looked_up<'a>(value: Option<Value>) -> Now<'a>
    ensures { (s : evaluation.Surroundings) → (h : state.Here) → (w : state.World) →
        standing s result h w ≡ looked_up value h w }
{
    match value {
        Some(value) => Now::Gives(Some(value)),
        None => not_proper(Kind::BadValue),
    }
}

/// The value that an operation comes to, or why it comes to none.
pub fn given<'a>(value: Result<Value, Kind>) -> Now<'a>
    ensures { (s : evaluation.Surroundings) → (h : state.Here) → (w : state.World) →
        standing s result h w ≡ proper value w (λ v. Gives (Some v) h w) }
{
    match value {
        Ok(value) => Now::Gives(Some(value)),
        Err(kind) => not_proper(kind),
    }
}

/// A test of an index, which raises the address of the built-in symbol where it fails.
pub fn checked<'a>(bound: Value, index: Value) -> Now<'a>
    ensures { (s : evaluation.Surroundings) → (h : state.Here) → (w : state.World) →
        standing s result h w ≡ proper (word_in bound) w (λ bound.
        proper (word_in index) w (λ index.
        cond (nat_lt index bound) (Gives None h w) (Raises bound_error h w))) }
{
    match word_in(bound) {
        Err(kind) => not_proper(kind),
        Ok(bound) => match word_in(index) {
            Err(kind) => not_proper(kind),
            Ok(index) => {
                if index < bound {
                    Now::Gives(None)
                } else {
                    Now::Raises(Value::Word(DATA_START))
                }
            }
        },
    }
}
