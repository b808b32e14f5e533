//! What an operator does to two values: a value, or why it is improper.
ghost use Rattle.std.specs.Prelude.{◌≡◌, bit_or, bit_xor, true, if◌then◌else◌};
ghost use Rattle.bs_words.specs.Word.{mul_word, mulh_word, div_word, rem_word, shl_word, shr_word, sar_word};
ghost use Rattle.bs_words.specs.Memory.{sizes};
ghost use Rattle.cmm_values.specs.Words.{applied_to_words};
ghost use Rattle.bs_words.specs.Operators.{only_if, sum_of, difference_of, on_words, quotient_of, shift_of};
ghost use Rattle.bs_words.specs.Operators.{masked_offset, bits_in_both, apply, condition_of, word_in};

use crate::comparisons::{is_near, signed_comparison, unsigned_comparison};
use crate::memory::Memory;
use bs_words::{IntOp, Kind, Value, add, div, mul, mulh, rem, sar, shl, shr, sub};

/// What the operator gives, in a run with this memory.
///
/// # Errors
///
/// `DivideByZero` where the divisor of a quotient or a remainder is 0, and `ShiftRange` where the amount of a shift
/// is 64 or more; else, where a value is no word and the operator has no result for the two, `PointerOrder` of a
/// comparison and `PointerArithmetic` of any other.
pub fn apply(op: IntOp, memory: &Memory, left: Value, right: Value) -> Result<Value, Kind>
    ensures { result ≡ apply op (sizes memory.now) left right }
{
    match op {
        IntOp::Add => sum_of(left, right),
        IntOp::AddV => sum_of(left, right),
        IntOp::AddA => sum_of(left, right),
        IntOp::Sub => difference_of(left, right),
        IntOp::And => bits_in_both(left, right),
        IntOp::Cmp(op) => signed_comparison(op, memory, left, right),
        IntOp::CmpU(op) => unsigned_comparison(op, memory, left, right),
        IntOp::Mul
        | IntOp::Mulh
        | IntOp::Div
        | IntOp::Mod
        | IntOp::Or
        | IntOp::Xor
        | IntOp::Shl
        | IntOp::Shr
        | IntOp::Sar => apply_to_words(op, left, right),
    }
}

// The operators that take words alone.
fn apply_to_words(op: IntOp, left: Value, right: Value) -> Result<Value, Kind>
    ensures { result ≡ applied_to_words op left right }
{
    match op {
        IntOp::Mul => product_of(left, right),
        IntOp::Mulh => high_product_of(left, right),
        IntOp::Div => quotient_of(left, right),
        IntOp::Mod => remainder_of(left, right),
        IntOp::Or => either_bits_of(left, right),
        IntOp::Xor => unequal_bits_of(left, right),
        IntOp::Shl => left_shift_of(left, right),
        IntOp::Shr => right_shift_of(left, right),
        IntOp::Sar => signed_right_shift_of(left, right),
        IntOp::Add
        | IntOp::AddV
        | IntOp::AddA
        | IntOp::Sub
        | IntOp::And
        | IntOp::Cmp(_)
        | IntOp::CmpU(_) => Err(Kind::PointerArithmetic),
    }
}

fn sum_of(left: Value, right: Value) -> Result<Value, Kind>
    ensures { result ≡ sum_of left right }
{
    match (left, right) {
        (Value::Word(a), Value::Word(b)) => Ok(Value::Word(add(a, b))),
        (Value::Block { serial, offset }, Value::Word(word)) => Ok(Value::Block {
            serial,
            offset: add(offset, word),
        }),
        (Value::Word(word), Value::Block { serial, offset }) => Ok(Value::Block {
            serial,
            offset: add(offset, word),
        }),
        (Value::Function(_), _)
        | (_, Value::Function(_))
        | (Value::Block { .. }, Value::Block { .. }) => Err(Kind::PointerArithmetic),
    }
}

fn difference_of(left: Value, right: Value) -> Result<Value, Kind>
    ensures { result ≡ difference_of left right }
{
    match (left, right) {
        (Value::Word(a), Value::Word(b)) => Ok(Value::Word(sub(a, b))),
        (Value::Block { serial, offset }, Value::Word(word)) => Ok(Value::Block {
            serial,
            offset: sub(offset, word),
        }),
        (
            Value::Block { serial, offset },
            Value::Block {
                serial: other,
                offset: from,
            },
        ) => only_if(
            serial == other,
            Kind::PointerArithmetic,
            Value::Word(sub(offset, from)),
        ),
        (Value::Function(_), _) | (_, Value::Function(_)) | (Value::Word(_), Value::Block { .. }) =>
            Err(Kind::PointerArithmetic),
    }
}

/// The value where the test holds, and else that kind.
pub(crate) fn only_if(holds: bool, kind: Kind, value: Value) -> Result<Value, Kind>
    ensures { result ≡ only_if holds kind value }
{
    if holds { Ok(value) } else { Err(kind) }
}

fn product_of(left: Value, right: Value) -> Result<Value, Kind>
    ensures { result ≡ on_words mul_word left right }
{
    match (left, right) {
        (Value::Word(a), Value::Word(b)) => Ok(Value::Word(mul(a, b))),
        (Value::Block { .. } | Value::Function(_), _)
        | (_, Value::Block { .. } | Value::Function(_)) => Err(Kind::PointerArithmetic),
    }
}

fn high_product_of(left: Value, right: Value) -> Result<Value, Kind>
    ensures { result ≡ on_words mulh_word left right }
{
    match (left, right) {
        (Value::Word(a), Value::Word(b)) => Ok(Value::Word(mulh(a, b))),
        (Value::Block { .. } | Value::Function(_), _)
        | (_, Value::Block { .. } | Value::Function(_)) => Err(Kind::PointerArithmetic),
    }
}

fn either_bits_of(left: Value, right: Value) -> Result<Value, Kind>
    ensures { result ≡ on_words bit_or left right }
{
    match (left, right) {
        (Value::Word(a), Value::Word(b)) => Ok(Value::Word(a | b)),
        (Value::Block { .. } | Value::Function(_), _)
        | (_, Value::Block { .. } | Value::Function(_)) => Err(Kind::PointerArithmetic),
    }
}

fn unequal_bits_of(left: Value, right: Value) -> Result<Value, Kind>
    ensures { result ≡ on_words bit_xor left right }
{
    match (left, right) {
        (Value::Word(a), Value::Word(b)) => Ok(Value::Word(a ^ b)),
        (Value::Block { .. } | Value::Function(_), _)
        | (_, Value::Block { .. } | Value::Function(_)) => Err(Kind::PointerArithmetic),
    }
}

// A divisor 0 comes before everything else, so that of a pointer too it is `DivideByZero`.
fn quotient_of(left: Value, right: Value) -> Result<Value, Kind>
    ensures { result ≡ quotient_of div_word left right }
{
    match (left, right) {
        (_, Value::Word(0)) => Err(Kind::DivideByZero),
        (Value::Word(a), Value::Word(b)) => Ok(Value::Word(div(a, b))),
        (Value::Block { .. } | Value::Function(_), _)
        | (_, Value::Block { .. } | Value::Function(_)) => Err(Kind::PointerArithmetic),
    }
}

fn remainder_of(left: Value, right: Value) -> Result<Value, Kind>
    ensures { result ≡ quotient_of rem_word left right }
{
    match (left, right) {
        (_, Value::Word(0)) => Err(Kind::DivideByZero),
        (Value::Word(a), Value::Word(b)) => Ok(Value::Word(rem(a, b))),
        (Value::Block { .. } | Value::Function(_), _)
        | (_, Value::Block { .. } | Value::Function(_)) => Err(Kind::PointerArithmetic),
    }
}

// An amount of 64 or more comes before everything else, so that of a pointer too it is `ShiftRange`.
fn left_shift_of(left: Value, right: Value) -> Result<Value, Kind>
    ensures { result ≡ shift_of shl_word left right }
{
    match (left, right) {
        (_, Value::Word(64..)) => Err(Kind::ShiftRange),
        (Value::Word(a), Value::Word(b)) => Ok(Value::Word(shl(a, b as u32))),
        (Value::Block { .. } | Value::Function(_), _)
        | (_, Value::Block { .. } | Value::Function(_)) => Err(Kind::PointerArithmetic),
    }
}

fn right_shift_of(left: Value, right: Value) -> Result<Value, Kind>
    ensures { result ≡ shift_of shr_word left right }
{
    match (left, right) {
        (_, Value::Word(64..)) => Err(Kind::ShiftRange),
        (Value::Word(a), Value::Word(b)) => Ok(Value::Word(shr(a, b as u32))),
        (Value::Block { .. } | Value::Function(_), _)
        | (_, Value::Block { .. } | Value::Function(_)) => Err(Kind::PointerArithmetic),
    }
}

fn signed_right_shift_of(left: Value, right: Value) -> Result<Value, Kind>
    ensures { result ≡ shift_of sar_word left right }
{
    match (left, right) {
        (_, Value::Word(64..)) => Err(Kind::ShiftRange),
        (Value::Word(a), Value::Word(b)) => Ok(Value::Word(sar(a, b as u32))),
        (Value::Block { .. } | Value::Function(_), _)
        | (_, Value::Block { .. } | Value::Function(_)) => Err(Kind::PointerArithmetic),
    }
}

fn bits_in_both(left: Value, right: Value) -> Result<Value, Kind>
    ensures { result ≡ bits_in_both left right }
{
    match (left, right) {
        (Value::Word(a), Value::Word(b)) => Ok(Value::Word(a & b)),
        (Value::Block { offset, .. }, Value::Word(mask)) => masked_offset(offset, mask),
        (Value::Word(mask), Value::Block { offset, .. }) => masked_offset(offset, mask),
        (Value::Function(_), Value::Word(mask)) => {
            only_if(mask == 1, Kind::PointerArithmetic, Value::Word(0))
        }
        (Value::Word(mask), Value::Function(_)) => {
            only_if(mask == 1, Kind::PointerArithmetic, Value::Word(0))
        }
        (Value::Block { .. } | Value::Function(_), Value::Block { .. } | Value::Function(_)) => {
            Err(Kind::PointerArithmetic)
        }
    }
}

// The bits of an offset under the mask 1 or 7.
fn masked_offset(offset: u64, mask: u64) -> Result<Value, Kind>
    ensures { result ≡ masked_offset offset mask }
{
    only_if(
        mask == 1 || mask == 7,
        Kind::PointerArithmetic,
        Value::Word(offset & mask),
    )
}

/// Whether the value, as a condition, holds.
///
/// # Errors
///
/// `PointerOrder` exactly where the value is a pointer that is not from the header of its block to its end.
pub fn condition_of(memory: &Memory, value: Value) -> Result<bool, Kind>
    ensures { result ≡ condition_of (sizes memory.now) value }
{
    match value {
        Value::Word(word) => Ok(word != 0),
        Value::Function(_) => Ok(true),
        Value::Block { serial, offset } => near_holds(is_near(memory, serial, offset)),
    }
}

fn near_holds(is_near: bool) -> Result<bool, Kind>
    ensures { result ≡ (if is_near then Ok true else Err Kind.PointerOrder) }
{
    if is_near {
        Ok(true)
    } else {
        Err(Kind::PointerOrder)
    }
}

/// The word that chooses a case of a switch or is tested against a bound.
///
/// # Errors
///
/// `PointerArithmetic` exactly where the value is no word.
pub fn word_in(value: Value) -> Result<u64, Kind>
    ensures { result ≡ word_in value }
{
    match value {
        Value::Word(word) => Ok(word),
        Value::Block { .. } | Value::Function(_) => Err(Kind::PointerArithmetic),
    }
}
