//! The words that integers and pointers stand for.
ghost use Rattle.std.specs.Prelude.{◌≡◌, ◌≤◌};
ghost use Rattle.cmm_lex.specs.Integers.{digit_value, word_up_to, based_word, decimal_word, unsigned_value, integer_value};
ghost use Rattle.cmm_lex.specs.Scanning.{number_in_base, decimal_of, digit_onto};

/// What a digit counts: `a` and `A` are ten.
fn digit_value(digit: u8) -> u8
    ensures { result ≡ digit_value digit }
{
    if digit <= b'9' {
        digit.saturating_sub(b'0')
    } else if digit <= b'F' {
        digit.saturating_sub(b'A' - 10)
    } else {
        digit.saturating_sub(b'a' - 10)
    }
}

/// A number with one digit more; `None` past 64 bits.
fn digit_onto(base: u64, number: u64, digit: u8) -> Option<u64>
    ensures { result ≡ digit_onto base number digit }
{
    number
        .checked_mul(base)?
        .checked_add(u64::from(digit_value(digit)))
}

/// The number that digits of a base spell; `None` past 64 bits.
fn number(base: u64, digits: &[u8]) -> Option<u64>
    requires { 1 ≤ base }
    ensures { result ≡ number_in_base base digits.now }
{
    let mut number: u64 = 0;
    let mut rest = digits;
    while let Some((digit, behind)) = rest.split_first() {
        number = digit_onto(base, number, *digit)?;
        rest = behind;
    }
    Some(number)
}

/// The number that the decimal digits in front spell; `None` past 64 bits.
fn decimal(text: &[u8]) -> Option<u64>
    ensures { result ≡ decimal_of text.now }
{
    let mut number: u64 = 0;
    let mut rest = text;
    while let Some((digit, behind)) = rest.split_first() {
        if !digit.is_ascii_digit() {
            return Some(number);
        }
        number = digit_onto(10, number, *digit)?;
        rest = behind;
    }
    Some(number)
}

/// The word of a number with or without a sign; `None` past the largest number.
#[tactic(auto, unfolding(crate::specs::Integers::word_up_to))]
fn word_up_to(largest: u64, negative: bool, number: u64) -> Option<u64>
    ensures { result ≡ word_up_to largest negative number }
{
    if number > largest {
        None
    } else if negative {
        Some(number.wrapping_neg())
    } else {
        Some(number)
    }
}

/// The word of digits of a base.
fn based_word(base: u64, negative: bool, digits: &[u8]) -> Option<u64>
    requires { 1 ≤ base }
    ensures { result ≡ based_word base negative digits.now }
{
    word_up_to(u64::MAX, negative, number(base, digits)?)
}

/// The word of decimal digits.
fn decimal_word(negative: bool, text: &[u8]) -> Option<u64>
    ensures { result ≡ decimal_word negative text.now }
{
    let largest = if negative { 1 << 63 } else { (1 << 63) - 1 };
    word_up_to(largest, negative, decimal(text)?)
}

/// The word of an integer after its sign.
fn unsigned_value(negative: bool, text: &[u8]) -> Option<u64>
    ensures { result ≡ unsigned_value negative text.now }
{
    match text {
        [_, b'x', digits @ ..] => based_word(16, negative, digits),
        [_, b'o', digits @ ..] => based_word(8, negative, digits),
        [_, b'b', digits @ ..] => based_word(2, negative, digits),
        _ => decimal_word(negative, text),
    }
}

/// The word that the text of an integer or a pointer stands for; `None` where it is out of range.
pub fn integer_value(text: &[u8]) -> Option<u64>
    ensures { result ≡ integer_value text.now }
{
    match text {
        [] => None,
        [b'-', digits @ ..] => unsigned_value(true, digits),
        _ => unsigned_value(false, text),
    }
}
