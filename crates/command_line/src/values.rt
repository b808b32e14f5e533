//! Values: numbers, names and items.
ghost use Rattle.std.specs.Prelude.{◌≡◌, ◌≢◌, ◌<◌, ◌≤◌, ◌∷◌, ◌++◌, ℕ, MatchOption, IfOk, IsErrOf, All};
ghost use Rattle.bs_words.specs.Contents.{contents};
ghost use Rattle.command_line.specs.declared.command.WordsError.{WordsError};
ghost use Rattle.bs_words.specs.Symbol.{IsSymbol};
ghost use Rattle.command_line.specs.Values.{IsNumber, IsSteps, IsSize, IsMoves, SeedsMoves, IsItem, IsCounted, IsSeed, IsStage, IsAlloc, IsOrder, IsItems, Nothing};

use crate::command::{Moves, WordsError};
use bs_words::{List, Name, is_symbol, sub};
use choices::{Alloc, Order};
use rv_machine::{Arg, MOST_ROOM};
use stages::Stage;
use std::alloc::Global;

/// The most instructions that a run may be asked to retire.
const MOST_STEPS: u64 = 1_000_000_000_000;

/// The most that a number after `-` may be, and without one.
const MOST_NEGATIVE: u64 = 9_223_372_036_854_775_808;

const MOST_POSITIVE: u64 = 9_223_372_036_854_775_807;

/// The number that the digits write, if they are digits and it is at most the limit.
fn number(digits: &[u8], limit: u64) -> Option<u64>
    ensures { MatchOption result
        ((n : ℕ) → IsNumber digits.now n → limit < n)
        (λ n. IsNumber digits.now n × (n ≤ limit)) }
{
    if digits.is_empty() {
        return None;
    }
    let mut number: u64 = 0;
    for digit in digits {
        if !digit.is_ascii_digit() {
            return None;
        }
        let more = 10 * u128::from(number) + u128::from(*digit - b'0');
        if more > u128::from(limit) {
            return None;
        }
        number = more as u64;
    }
    Some(number)
}

/// The number of instructions that the text writes.
pub(crate) fn steps(text: &[u8]) -> Option<u64>
    ensures { MatchOption result
        (Nothing (IsSteps text.now))
        (λ n. IsSteps text.now n) }
{
    number(text, MOST_STEPS)
}

/// The size of a stack or of half of a heap that the text writes.
pub(crate) fn size(text: &[u8]) -> Option<u32>
    ensures { MatchOption result
        (Nothing (IsSize text.now))
        (λ n. IsSize text.now n) }
{
    let bytes = number(text, u64::from(MOST_ROOM))?;
    if bytes % 16 == 0 {
        Some(bytes as u32)
    } else {
        None
    }
}

/// When the mover asks and where it puts blocks, as the text says: `none`, `every`, or `seed:` and a
/// seed.
pub(crate) fn moves(text: &[u8]) -> Option<Moves>
    ensures { MatchOption result
        (Nothing (IsMoves text.now))
        (λ moves. IsMoves text.now moves) }
{
    if text == b"none".as_slice() {
        Some(Moves::Never)
    } else if text == b"every".as_slice() {
        Some(Moves::Every)
    } else {
        seeded(text)
    }
}

/// The moves by the seed that is after `seed:`.
fn seeded(text: &[u8]) -> Option<Moves>
    ensures { MatchOption result
        (Nothing (SeedsMoves text.now))
        (λ moves. SeedsMoves text.now moves) }
{
    match text.strip_prefix(b"seed:".as_slice()) {
        Some(digits) => match seed(digits) {
            Some(seed) => Some(Moves::Seed(seed)),
            None => None,
        },
        None => None,
    }
}

/// The seed that the text writes.
pub(crate) fn seed(text: &[u8]) -> Option<u64>
    ensures { MatchOption result
        (Nothing (IsSeed text.now))
        (λ n. IsSeed text.now n) }
{
    number(text, u64::MAX)
}

/// The number from 1 to the limit that the text writes.
pub(crate) fn counted(text: &[u8], limit: u32) -> Option<u32>
    ensures { MatchOption result
        (Nothing (IsCounted limit text.now))
        (λ n. IsCounted limit text.now n) }
{
    match number(text, u64::from(limit)) {
        Some(n) if n >= 1 => Some(n as u32),
        _ => None,
    }
}

/// The stage that the text names.
pub(crate) fn stage(text: &[u8]) -> Option<Stage>
    ensures { MatchOption result
        (Nothing (IsStage text.now))
        (λ stage. IsStage text.now stage) }
{
    if text == b"select".as_slice() {
        Some(Stage::Select)
    } else if text == b"comballoc".as_slice() {
        Some(Stage::CombAlloc)
    } else if text == b"cse".as_slice() {
        Some(Stage::Cse)
    } else if text == b"dead".as_slice() {
        Some(Stage::Dead)
    } else if text == b"spill".as_slice() {
        Some(Stage::Spill)
    } else if text == b"split".as_slice() {
        Some(Stage::Split)
    } else if text == b"alloc".as_slice() {
        Some(Stage::Alloc)
    } else if text == b"linear".as_slice() {
        Some(Stage::Linear)
    } else if text == b"frames".as_slice() {
        Some(Stage::Frames)
    } else if text == b"code".as_slice() {
        Some(Stage::Code)
    } else {
        None
    }
}

/// How registers get their places, as the text says: `colour` or `linscan`.
pub(crate) fn alloc(text: &[u8]) -> Option<Alloc>
    ensures { MatchOption result
        (Nothing (IsAlloc text.now))
        (λ alloc. IsAlloc text.now alloc) }
{
    if text == b"colour".as_slice() {
        Some(Alloc::Colour)
    } else if text == b"linscan".as_slice() {
        Some(Alloc::Linear)
    } else {
        None
    }
}

/// In which order lines stand, as the text says: `none` or `list`.
pub(crate) fn order(text: &[u8]) -> Option<Order>
    ensures { MatchOption result
        (Nothing (IsOrder text.now))
        (λ order. IsOrder text.now order) }
{
    if text == b"none".as_slice() {
        Some(Order::Plain)
    } else if text == b"list".as_slice() {
        Some(Order::List)
    } else {
        None
    }
}

/// The name that the text is.
pub(crate) fn name(alloc: Global, text: &[u8]) -> Result<Name, WordsError>
    ensures value { IfOk result (λ bytes. (bytes ≡ text.now) × IsSymbol text.now) }
    ensures bad { IsErrOf result WordsError.ValueText → ¬ IsSymbol text.now }
    ensures formed { ¬ IsErrOf result WordsError.Words }
    ensures memory { IsErrOf result WordsError.OutOfMemory → IsSymbol text.now }
{
    if !is_symbol(text) {
        return Err(WordsError::ValueText);
    }
    Ok(Name::from_vec(Vec::from_slice(alloc, text)?))
}

/// What follows the sign, if the text begins with it.
fn after_sign(text: &[u8], sign: u8) -> Option<&[u8]>
    ensures { MatchOption result
        (Nothing (λ rest. text.now ≡ sign ∷ rest))
        (λ rest. text.now ≡ sign ∷ rest.now) }
{
    match text.split_first() {
        Some((first, rest)) if *first == sign => Some(rest),
        _ => None,
    }
}

/// The one item that the text is.
fn item(alloc: Global, text: &[u8]) -> Result<Arg, WordsError>
    requires { All (λ b. b ≢ 44) text.now }
    ensures value { IfOk result (λ item. IsItem text.now item) }
    ensures bad { IsErrOf result WordsError.ValueText → Nothing (IsItem text.now) }
    ensures formed { ¬ IsErrOf result WordsError.Words }
{
    if let Some(symbol) = after_sign(text, b'@') {
        return Ok(Arg::Symbol(name(alloc, symbol)?));
    }
    if let Some(digits) = after_sign(text, b'-') {
        return match number(digits, MOST_NEGATIVE) {
            Some(n) => Ok(Arg::Word(sub(0, n))),
            None => Err(WordsError::ValueText),
        };
    }
    match number(text, MOST_POSITIVE) {
        Some(n) => Ok(Arg::Word(n)),
        None => Err(WordsError::ValueText),
    }
}

/// What is before and after the first comma.
fn cut_at_comma(text: &[u8]) -> Option<(&[u8], &[u8])>
    ensures { MatchOption result
        (All (λ b. b ≢ 44) text.now)
        (λ parts. (text.now ≡ parts.0.now ++ 44 ∷ parts.1.now) × All (λ b. b ≢ 44) parts.0.now) }
{
    for (at, byte) in text.iter().enumerate() {
        if *byte == b',' {
            return Some((&text[..at], &text[at + 1..]));
        }
    }
    None
}

/// The items that the text lists, with a comma between each two. No byte is no item.
pub(crate) fn items(alloc: Global, text: &[u8]) -> Result<List<Arg>, WordsError>
    ensures value { IfOk result (λ items. IsItems text.now (contents items)) }
    ensures bad { IsErrOf result WordsError.ValueText → Nothing (IsItems text.now) }
    ensures formed { ¬ IsErrOf result WordsError.Words }
{
    let mut items = Vec::new(alloc);
    if text.is_empty() {
        return Ok(List::from_vec(items));
    }
    let mut rest = text;
    while let Some((first, others)) = cut_at_comma(rest) {
        items.push(item(alloc, first)?)?;
        rest = others;
    }
    items.push(item(alloc, rest)?)?;
    Ok(List::from_vec(items))
}
