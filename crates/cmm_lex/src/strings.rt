//! The escapes of strings, and the bytes that strings stand for.
ghost use Rattle.std.specs.Prelude.{◌≡◌, MatchOption, IfOk, None};
ghost use Rattle.bs_words.specs.Contents.{contents};
ghost use Rattle.cmm_lex.specs.Scanning.{step_of, code_of, first_unescaped, begins_escape, is_bad, next_byte, IsFine};
ghost use Rattle.cmm_lex.specs.Strings.{escaped, BadEscape, string_bytes};

use bs_words::List;
use std::alloc::{AllocError, Global};

/// The byte that three decimal digits at the front stand for, and the bytes after them; `None` where
/// there are none up to 255.
fn code(bytes: &[u8]) -> Option<(u8, &[u8])>
    ensures { step_of result ≡ code_of bytes.now }
{
    let [a, b, c, behind @ ..] = bytes else {
        return None;
    };
    if a.is_ascii_digit() && b.is_ascii_digit() && c.is_ascii_digit() {
        let number = 100 * u16::from(*a - b'0') + 10 * u16::from(*b - b'0') + u16::from(*c - b'0');
        if number <= 255 {
            return Some((number as u8, behind));
        }
    }
    None
}

/// The byte that a backslash before this letter stands for; another byte stands for itself.
fn escaped(letter: u8) -> u8
    ensures { result ≡ escaped letter }
{
    match letter {
        b'n' => b'\n',
        b't' => b'\t',
        b'r' => b'\r',
        b'b' => 8,
        _ => letter,
    }
}

/// The byte that a backslash before these bytes stands for, and the bytes after its escape; `None` at
/// the end.
fn unescape(bytes: &[u8]) -> Option<(u8, &[u8])>
    ensures { step_of result ≡ first_unescaped bytes.now }
{
    if let Some(found) = code(bytes) {
        return Some(found);
    }
    let (letter, behind) = bytes.split_first()?;
    Some((escaped(*letter), behind))
}

/// Whether a backslash before these bytes begins an escape.
fn begins_escape(bytes: &[u8]) -> bool
    ensures { result ≡ begins_escape bytes.now }
{
    match bytes {
        [b'\\' | b'"' | b'n' | b't' | b'r' | b'b', ..] => true,
        _ => code(bytes).is_some(),
    }
}

/// Whether the bytes begin with a backslash that begins no escape.
fn is_bad(bytes: &[u8]) -> bool
    ensures { result ≡ is_bad bytes.now }
{
    match bytes {
        [b'\\', behind @ ..] => !begins_escape(behind),
        _ => false,
    }
}

/// The byte that a string goes on with, its escape replaced, and the bytes after it; `None` at the
/// closing quote and at the end.
fn next_byte(bytes: &[u8]) -> Option<(u8, &[u8])>
    ensures { step_of result ≡ next_byte bytes.now }
{
    match bytes {
        [] | [b'"', ..] => None,
        [b'\\', behind @ ..] => unescape(behind),
        [byte, behind @ ..] => Some((*byte, behind)),
    }
}

/// How many bytes are before the first backslash that begins no escape; `None` where each one up to the
/// closing quote does. The bytes are those after the opening quote.
pub fn bad_escape(bytes: &[u8]) -> Option<usize>
    ensures { MatchOption result (IsFine bytes.now) (λ offset. BadEscape offset bytes.now) }
{
    let mut rest = bytes;
    while let Some((_, behind)) = next_byte(rest) {
        if is_bad(rest) {
            return Some(bytes.len() - rest.len());
        }
        rest = behind;
    }
    None
}

/// The bytes that the text of a string stands for: those between its quotes, each escape replaced.
/// The only error is want of memory.
pub fn string_value(alloc: Global, text: &[u8]) -> Result<List<u8>, AllocError>
    ensures { IfOk result (λ bytes. contents bytes ≡ string_bytes text.now) }
{
    let mut bytes = Vec::new(alloc);
    let Some((_, inside)) = text.split_first() else {
        return Ok(List::from_vec(bytes));
    };
    let mut rest = inside;
    while let Some((byte, behind)) = next_byte(rest) {
        bytes.push(byte)?;
        rest = behind;
    }
    Ok(List::from_vec(bytes))
}
