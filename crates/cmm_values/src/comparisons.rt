//! Comparisons of values, where they can be said.
ghost use Rattle.std.specs.Prelude.{◌≡◌, not};
ghost use Rattle.cmm_values.specs.Orders.{order_of_pointers};
ghost use Rattle.bs_words.specs.Memory.{sizes};
ghost use Rattle.bs_words.specs.Operators.{truth, signed_holds, unsigned_holds, is_in, is_near, is_apart_from_block};
ghost use Rattle.bs_words.specs.Operators.{is_apart_from_code, unequal_if, equality_of, order_of, as_value};
ghost use Rattle.bs_words.specs.Operators.{comparison_of};

use crate::memory::Memory;
use crate::operators::only_if;
use bs_words::{CmpOp, Kind, Value, signed};

/// A signed comparison: 1 where it holds, else 0.
pub(crate) fn signed_comparison(
    op: CmpOp,
    memory: &Memory,
    left: Value,
    right: Value,
) -> Result<Value, Kind>
    ensures { result ≡ comparison_of signed_holds op (sizes memory.now) left right }
{
    match op {
        CmpOp::Eq => as_truth(equality_of(memory, left, right)),
        CmpOp::Ne => as_untruth(equality_of(memory, left, right)),
        CmpOp::Lt | CmpOp::Le | CmpOp::Gt | CmpOp::Ge => signed_order(op, memory, left, right),
    }
}

/// An unsigned comparison: 1 where it holds, else 0.
pub(crate) fn unsigned_comparison(
    op: CmpOp,
    memory: &Memory,
    left: Value,
    right: Value,
) -> Result<Value, Kind>
    ensures { result ≡ comparison_of unsigned_holds op (sizes memory.now) left right }
{
    match op {
        CmpOp::Eq => as_truth(equality_of(memory, left, right)),
        CmpOp::Ne => as_untruth(equality_of(memory, left, right)),
        CmpOp::Lt | CmpOp::Le | CmpOp::Gt | CmpOp::Ge => unsigned_order(op, memory, left, right),
    }
}

fn as_truth(equal: Result<bool, Kind>) -> Result<Value, Kind>
    ensures { result ≡ as_value (λ e. e) equal }
{
    match equal {
        Ok(holds) => Ok(truth(holds)),
        Err(kind) => Err(kind),
    }
}

fn as_untruth(equal: Result<bool, Kind>) -> Result<Value, Kind>
    ensures { result ≡ as_value not equal }
{
    match equal {
        Ok(holds) => Ok(truth(!holds)),
        Err(kind) => Err(kind),
    }
}

fn truth(holds: bool) -> Value
    ensures { result ≡ truth holds }
{
    if holds {
        Value::Word(1)
    } else {
        Value::Word(0)
    }
}

fn signed_holds(op: CmpOp, left: u64, right: u64) -> bool
    ensures { result ≡ signed_holds op left right }
{
    match op {
        CmpOp::Eq => left == right,
        CmpOp::Ne => left != right,
        CmpOp::Lt => signed(left) < signed(right),
        CmpOp::Le => signed(left) <= signed(right),
        CmpOp::Gt => signed(right) < signed(left),
        CmpOp::Ge => signed(right) <= signed(left),
    }
}

fn unsigned_holds(op: CmpOp, left: u64, right: u64) -> bool
    ensures { result ≡ unsigned_holds op left right }
{
    match op {
        CmpOp::Eq => left == right,
        CmpOp::Ne => left != right,
        CmpOp::Lt => left < right,
        CmpOp::Le => left <= right,
        CmpOp::Gt => right < left,
        CmpOp::Ge => right <= left,
    }
}

// A pointer at a byte of its block. In 128 bits eight times a number of cells cannot wrap.
fn is_in(memory: &Memory, serial: u64, offset: u64) -> bool
    ensures { result ≡ is_in (sizes memory.now) serial offset }
{
    u128::from(offset) < 8 * u128::from(memory.cells_of(serial))
}

/// Whether a pointer lies from the header of its block to its end, both counted.
pub(crate) fn is_near(memory: &Memory, serial: u64, offset: u64) -> bool
    ensures { result ≡ is_near (sizes memory.now) serial offset }
{
    u128::from(offset) <= 8 * u128::from(memory.cells_of(serial)) || offset >= HEADER
}

/// The offset of the header of a block: 8 bytes before its start.
const HEADER: u64 = 0xFFFF_FFFF_FFFF_FFF8;

// A word that is the address of no byte of a block at this offset, wherever the mover puts the block: blocks
// start at multiples of 8 from 0x30000000 on, and lie below 0x40000000.
fn is_apart_from_block(offset: u64, word: u64) -> bool
    ensures { result ≡ is_apart_from_block offset word }
{
    word < 0x3000_0000 || word > 0x3FFF_FFFF || (word % 2 == 1 && offset % 2 == 0)
}

// A word that is the address of no function: these are even, and in the code's region.
fn is_apart_from_code(word: u64) -> bool
    ensures { result ≡ is_apart_from_code word }
{
    word % 2 == 1 || word < 0x0001_0000 || word > 0x0FFF_FFFF
}

fn unequal_if(apart: bool) -> Result<bool, Kind>
    ensures { result ≡ unequal_if apart }
{
    if apart {
        Ok(false)
    } else {
        Err(Kind::PointerOrder)
    }
}

// Whether two values are equal, where that can be said.
fn equality_of(memory: &Memory, left: Value, right: Value) -> Result<bool, Kind>
    ensures { result ≡ equality_of (sizes memory.now) left right }
{
    match left {
        Value::Word(word) => word_equality(memory, word, right),
        Value::Block { serial, offset } => pointer_equality(memory, serial, offset, right),
        Value::Function(function) => function_equality(memory, function, right),
    }
}

fn word_equality(memory: &Memory, word: u64, other: Value) -> Result<bool, Kind>
    ensures { result ≡ equality_of (sizes memory.now) (Value.Word word) other }
{
    match other {
        Value::Word(other) => Ok(word == other),
        Value::Block { serial, offset } => {
            unequal_if(is_in(memory, serial, offset) && is_apart_from_block(offset, word))
        }
        Value::Function(_) => unequal_if(is_apart_from_code(word)),
    }
}

fn function_equality(memory: &Memory, function: u32, other: Value) -> Result<bool, Kind>
    ensures { result ≡ equality_of (sizes memory.now) (Value.Function function) other }
{
    match other {
        Value::Word(word) => unequal_if(is_apart_from_code(word)),
        Value::Block { serial, offset } => unequal_if(is_in(memory, serial, offset)),
        Value::Function(other) => Ok(function == other),
    }
}

// Whether a pointer is equal to a value.
fn pointer_equality(memory: &Memory, serial: u64, offset: u64, other: Value) -> Result<bool, Kind>
    ensures { result ≡ equality_of (sizes memory.now) (Value.Block serial offset) other }
{
    match other {
        Value::Word(word) => unequal_if(
            is_in(memory, serial, offset) && is_apart_from_block(offset, word),
        ),
        Value::Function(_) => unequal_if(is_in(memory, serial, offset)),
        Value::Block {
            serial: other,
            offset: at,
        } => block_equality(memory, serial, offset, other, at),
    }
}

fn block_equality(
    memory: &Memory,
    serial: u64,
    offset: u64,
    other: u64,
    at: u64,
) -> Result<bool, Kind>
    ensures { result
        ≡ equality_of (sizes memory.now) (Value.Block serial offset) (Value.Block other at) }
{
    if serial == other {
        return Ok(offset == at);
    }
    unequal_if(is_in(memory, serial, offset) && is_in(memory, other, at))
}

fn signed_order(op: CmpOp, memory: &Memory, left: Value, right: Value) -> Result<Value, Kind>
    ensures { result ≡ order_of signed_holds op (sizes memory.now) left right }
{
    match (left, right) {
        (Value::Word(a), Value::Word(b)) => Ok(truth(signed_holds(op, a, b))),
        (Value::Block { .. } | Value::Function(_), _)
        | (_, Value::Block { .. } | Value::Function(_)) => pointer_order(op, memory, left, right),
    }
}

fn unsigned_order(op: CmpOp, memory: &Memory, left: Value, right: Value) -> Result<Value, Kind>
    ensures { result ≡ order_of unsigned_holds op (sizes memory.now) left right }
{
    match (left, right) {
        (Value::Word(a), Value::Word(b)) => Ok(truth(unsigned_holds(op, a, b))),
        (Value::Block { .. } | Value::Function(_), _)
        | (_, Value::Block { .. } | Value::Function(_)) => pointer_order(op, memory, left, right),
    }
}

// The order of two pointers near one block, by their signed offsets.
fn pointer_order(op: CmpOp, memory: &Memory, left: Value, right: Value) -> Result<Value, Kind>
    ensures { result ≡ order_of_pointers op (sizes memory.now) left right }
{
    match (left, right) {
        (
            Value::Block { serial, offset },
            Value::Block {
                serial: other,
                offset: at,
            },
        ) => only_if(
            serial == other && is_near(memory, serial, offset) && is_near(memory, other, at),
            Kind::PointerOrder,
            truth(signed_holds(op, offset, at)),
        ),
        (Value::Word(_) | Value::Function(_), _) | (_, Value::Word(_) | Value::Function(_)) => Err(
            Kind::PointerOrder,
        ),
    }
}
