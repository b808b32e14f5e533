//! The words of a row: registers, numbers, values, tests and operators.
//!
//! A register is the letter of its component (`i` int, `v` val, `a` addr) and its number, then its place after `@` (a
//! number of a register of the machine, or `s` and the number of a slot) and its origin after `^` where that is another.
//! A location of Linear is a register with no number: `v@s1`.

use bs_words::{Chunk, CmpOp, Comp, IntOp, Loc, Ret, Value};
use mach_ir::{Reg, Right, Test};

static OPERATORS: [(&str, IntOp); 14] = [
    ("+", IntOp::Add),
    ("+v", IntOp::AddV),
    ("+a", IntOp::AddA),
    ("-", IntOp::Sub),
    ("*", IntOp::Mul),
    ("*h", IntOp::Mulh),
    ("/", IntOp::Div),
    ("mod", IntOp::Mod),
    ("and", IntOp::And),
    ("or", IntOp::Or),
    ("xor", IntOp::Xor),
    ("<<", IntOp::Shl),
    (">>u", IntOp::Shr),
    (">>s", IntOp::Sar),
];

static COMPARISONS: [(&str, CmpOp); 6] = [
    ("==", CmpOp::Eq),
    ("!=", CmpOp::Ne),
    ("<", CmpOp::Lt),
    ("<=", CmpOp::Le),
    (">", CmpOp::Gt),
    (">=", CmpOp::Ge),
];

static CHUNKS: [(&str, Chunk); 8] = [
    ("u8", Chunk::U8),
    ("i8", Chunk::I8),
    ("u16", Chunk::U16),
    ("i16", Chunk::I16),
    ("u32", Chunk::U32),
    ("i32", Chunk::I32),
    ("int", Chunk::Int),
    ("val", Chunk::Val),
];

static RESULTS: [(&str, Ret); 4] = [
    ("int", Ret::Comp(Comp::Int)),
    ("val", Ret::Comp(Comp::Val)),
    ("addr", Ret::Comp(Comp::Addr)),
    ("unit", Ret::Unit),
];

/// What a word stands for in a table.
pub fn entry<T: Copy>(table: &[(&'static str, T)], word: &str) -> Option<T> {
    for row in table {
        if row.0 == word {
            return Some(row.1);
        }
    }
    None
}

/// The integer operator of that name, if there is one.
pub fn operator(word: &str) -> Option<IntOp> {
    match word.strip_prefix("u") {
        Some(compare) => Some(IntOp::CmpU(entry(&COMPARISONS, compare)?)),
        None => match entry(&COMPARISONS, word) {
            Some(compare) => Some(IntOp::Cmp(compare)),
            None => entry(&OPERATORS, word),
        },
    }
}

/// The memory chunk of that name, if there is one.
pub fn chunk(word: &str) -> Option<Chunk> {
    entry(&CHUNKS, word)
}

fn comparison(word: &str, right: Right) -> Option<Test> {
    match word.strip_prefix("u") {
        Some(compare) => Some(Test::Unsigned(entry(&COMPARISONS, compare)?, right)),
        None => Some(Test::Signed(entry(&COMPARISONS, word)?, right)),
    }
}

/// A test, whose right operand is a constant or the last register.
pub fn test(word: &str, right: Right) -> Option<Test> {
    match word {
        "holds" => Some(Test::Holds),
        "fails" => Some(Test::Fails),
        _ => comparison(word, right),
    }
}

/// A word of 64 bits, in decimal digits, a minus before it where it is negative.
pub fn number(word: &str) -> Option<u64> {
    match word.strip_prefix("-") {
        Some(digits) => Some(0u64.wrapping_sub(digits.parse::<u64>().ok()?)),
        None => word.parse::<u64>().ok(),
    }
}

/// What a function gives whose result has that name, if it is one.
pub fn given(word: &str) -> Option<Ret> {
    entry(&RESULTS, word)
}

/// A block's serial, with an offset after `+`.
fn block(word: &str) -> Option<Value> {
    let (serial, offset) = match word.split_once("+") {
        Some(parts) => parts,
        None => (word, "0"),
    };
    let serial = number(serial)?;
    let offset = number(offset)?;
    Some(Value::Block { serial, offset })
}

/// A word; `b` and a block's serial, with an offset after `+`; or `f` and a function's number.
pub fn value(word: &str) -> Option<Value> {
    if let Some(function) = word.strip_prefix("f") {
        return Some(Value::Function(function.parse::<u32>().ok()?));
    }
    match word.strip_prefix("b") {
        Some(rest) => block(rest),
        None => Some(Value::Word(number(word)?)),
    }
}

fn typed(word: &str) -> Option<(Comp, &str)> {
    if let Some(rest) = word.strip_prefix("i") {
        return Some((Comp::Int, rest));
    }
    if let Some(rest) = word.strip_prefix("v") {
        return Some((Comp::Val, rest));
    }
    match word.strip_prefix("a") {
        Some(rest) => Some((Comp::Addr, rest)),
        None => None,
    }
}

fn loc(word: &str) -> Option<Loc> {
    match word.strip_prefix("s") {
        Some(slot) => Some(Loc::Slot(slot.parse::<u32>().ok()?)),
        None => Some(Loc::Machine(word.parse::<u8>().ok()?)),
    }
}

/// The number of a register at a place, which may be left out.
fn number_at_place(word: &str) -> Option<u32> {
    if word.is_empty() {
        Some(0)
    } else {
        word.parse::<u32>().ok()
    }
}

/// The number of a register and its place.
fn numbered(word: &str) -> Option<(u32, Loc)> {
    match word.split_once("@") {
        Some((number, place)) => Some((number_at_place(number)?, loc(place)?)),
        None => Some((word.parse::<u32>().ok()?, Loc::Unset)),
    }
}

/// A register that is its own origin.
fn origin_register(word: &str) -> Option<Reg> {
    let (comp, rest) = typed(word)?;
    let (number, loc) = numbered(rest)?;
    let origin = number;
    Some(Reg {
        number,
        comp,
        loc,
        origin,
    })
}

/// A register, or no register.
pub fn register(word: &str) -> Option<Reg> {
    match word.split_once("^") {
        Some((word, origin)) => {
            let mut reg = origin_register(word)?;
            reg.origin = origin.parse::<u32>().ok()?;
            Some(reg)
        }
        None => origin_register(word),
    }
}

/// The constant after `#` among the words, as the right operand; else the last register.
pub fn right(words: &[&str]) -> Right {
    for word in words {
        if let Some(constant) = word.strip_prefix("#") {
            if let Some(constant) = number(constant) {
                return Right::Constant(constant);
            }
        }
    }
    Right::Register
}
