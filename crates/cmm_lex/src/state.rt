//! The automaton of tokens: what the bytes read so far may go on to. Strings are read apart.
ghost use Rattle.std.specs.Prelude.{◌≡◌};
ghost use Rattle.cmm_lex.specs.Automaton.{is_digit, is_hexadecimal, is_octal, is_binary, is_letter, is_word_byte};
ghost use Rattle.cmm_lex.specs.Automaton.{after_name, accepts_name, after_decimal, if_digit, after_number};
ghost use Rattle.cmm_lex.specs.Automaton.{accepts_number, after_operator, accepts_operator, after_start, state_after_byte};
ghost use Rattle.cmm_lex.specs.Automaton.{accepts, is_dead};

/// What a token is by its bytes' classes: words may be names or keywords.
#[derive(Clone, Copy)]
pub enum Shape {
    /// A name or a keyword.
    Word,
    /// An integer, of any base.
    Integer,
    /// A decimal integer with `a` after it.
    Pointer,
    /// Digits with a point, an exponent, or both.
    Float,
    /// An operator or a sign.
    Signs,
}

/// Where in a word.
#[derive(Clone, Copy)]
pub enum NamePart {
    /// Before any `/`.
    Body,
    /// After `/`.
    Slash,
    /// In the digits after `/`.
    Digits,
}

/// Where in an integer, a pointer or a float.
#[derive(Clone, Copy)]
pub enum NumberPart {
    /// After one `0`.
    Zero,
    /// In decimal digits.
    Decimal,
    /// After `0x`.
    HexadecimalBase,
    /// In the digits after `0x`.
    Hexadecimal,
    /// After `0o`.
    OctalBase,
    /// In the digits after `0o`.
    Octal,
    /// After `0b`.
    BinaryBase,
    /// In the digits after `0b`.
    Binary,
    /// After `.` and any digits.
    Fraction,
    /// After `e` or `E`.
    Exponent,
    /// After the exponent's sign.
    ExponentSign,
    /// In the exponent's digits.
    ExponentDigits,
}

/// Which operator so far.
#[derive(Clone, Copy)]
pub enum OperatorPart {
    /// `+`
    Plus,
    /// `-`, which may begin a number.
    Minus,
    /// `*` or `/`.
    Product,
    /// `<`
    Less,
    /// `>`
    Greater,
    /// `>>`
    Shift,
    /// `=` or `!`
    Equal,
    /// A comparison of two or more bytes but for its type's letter.
    Comparison,
}

/// What was read of a token.
#[derive(Clone, Copy)]
pub enum State {
    /// No byte.
    Start,
    /// A word so far.
    Name(NamePart),
    /// An integer, a pointer or a float so far.
    Number(NumberPart),
    /// An operator so far.
    Operator(OperatorPart),
    /// A whole token, which nothing makes longer.
    Done(Shape),
    /// No token begins with what was read.
    Dead,
}

fn is_digit(byte: u8) -> bool
    ensures { result ≡ is_digit byte }
{
    byte.is_ascii_digit()
}

fn is_hexadecimal(byte: u8) -> bool
    ensures { result ≡ is_hexadecimal byte }
{
    byte.is_ascii_hexdigit()
}

fn is_octal(byte: u8) -> bool
    ensures { result ≡ is_octal byte }
{
    matches!(byte, b'0'..=b'7')
}

fn is_binary(byte: u8) -> bool
    ensures { result ≡ is_binary byte }
{
    matches!(byte, b'0'..=b'1')
}

fn is_letter(byte: u8) -> bool
    ensures { result ≡ is_letter byte }
{
    byte.is_ascii_alphabetic() || byte == b'_'
}

fn is_word_byte(byte: u8) -> bool
    ensures { result ≡ is_word_byte byte }
{
    is_letter(byte) || is_digit(byte) || byte == b'\'' || byte == b'.' || byte == b'$'
}

impl NamePart {
    /// What was read when `byte` follows.
    #[tactic(auto, unfolding(crate::specs::Automaton::after_name))]
    fn after(self, byte: u8) -> State
        ensures { result ≡ after_name self byte }
    {
        match self {
            NamePart::Body => {
                if is_word_byte(byte) {
                    State::Name(NamePart::Body)
                } else if byte == b'/' {
                    State::Name(NamePart::Slash)
                } else {
                    State::Dead
                }
            }
            NamePart::Slash | NamePart::Digits => {
                if is_digit(byte) {
                    State::Name(NamePart::Digits)
                } else {
                    State::Dead
                }
            }
        }
    }

    /// Whether the bytes read are a name.
    #[tactic(auto, unfolding(crate::specs::Automaton::accepts_name))]
    fn accepts(self) -> Option<Shape>
        ensures { result ≡ accepts_name self }
    {
        match self {
            NamePart::Body | NamePart::Digits => Some(Shape::Word),
            NamePart::Slash => None,
        }
    }
}

/// What was read when `byte` follows decimal digits.
#[tactic(auto, unfolding(crate::specs::Automaton::after_decimal))]
fn after_decimal(byte: u8) -> State
    ensures { result ≡ after_decimal byte }
{
    match byte {
        b'0'..=b'9' => State::Number(NumberPart::Decimal),
        b'a' => State::Done(Shape::Pointer),
        b'.' => State::Number(NumberPart::Fraction),
        b'e' | b'E' => State::Number(NumberPart::Exponent),
        _ => State::Dead,
    }
}

/// The part of a number that `byte` goes on with where it is a digit of the part.
fn if_digit(is_digit: bool, part: NumberPart) -> State
    ensures { result ≡ if_digit is_digit part }
{
    if is_digit {
        State::Number(part)
    } else {
        State::Dead
    }
}

impl NumberPart {
    /// What was read when `byte` follows.
    #[tactic(auto, unfolding(crate::specs::Automaton::after_number))]
    fn after(self, byte: u8) -> State
        ensures { result ≡ after_number self byte }
    {
        match self {
            NumberPart::Zero => match byte {
                b'x' => State::Number(NumberPart::HexadecimalBase),
                b'o' => State::Number(NumberPart::OctalBase),
                b'b' => State::Number(NumberPart::BinaryBase),
                _ => after_decimal(byte),
            },
            NumberPart::Decimal => after_decimal(byte),
            NumberPart::HexadecimalBase | NumberPart::Hexadecimal => {
                if_digit(is_hexadecimal(byte), NumberPart::Hexadecimal)
            }
            NumberPart::OctalBase | NumberPart::Octal => {
                if_digit(is_octal(byte), NumberPart::Octal)
            }
            NumberPart::BinaryBase | NumberPart::Binary => {
                if_digit(is_binary(byte), NumberPart::Binary)
            }
            NumberPart::Fraction => match byte {
                b'e' | b'E' => State::Number(NumberPart::Exponent),
                _ => if_digit(is_digit(byte), NumberPart::Fraction),
            },
            NumberPart::Exponent => match byte {
                b'+' | b'-' => State::Number(NumberPart::ExponentSign),
                _ => if_digit(is_digit(byte), NumberPart::ExponentDigits),
            },
            NumberPart::ExponentSign | NumberPart::ExponentDigits => {
                if_digit(is_digit(byte), NumberPart::ExponentDigits)
            }
        }
    }

    /// What the bytes read are, if they are a whole number.
    #[tactic(auto, unfolding(crate::specs::Automaton::accepts_number))]
    fn accepts(self) -> Option<Shape>
        ensures { result ≡ accepts_number self }
    {
        match self {
            NumberPart::Zero
            | NumberPart::Decimal
            | NumberPart::Hexadecimal
            | NumberPart::Octal
            | NumberPart::Binary => Some(Shape::Integer),
            NumberPart::Fraction | NumberPart::ExponentDigits => Some(Shape::Float),
            NumberPart::HexadecimalBase
            | NumberPart::OctalBase
            | NumberPart::BinaryBase
            | NumberPart::Exponent
            | NumberPart::ExponentSign => None,
        }
    }
}

impl OperatorPart {
    /// What was read when `byte` follows.
    #[tactic(auto, unfolding(crate::specs::Automaton::after_operator))]
    fn after(self, byte: u8) -> State
        ensures { result ≡ after_operator self byte }
    {
        match self {
            OperatorPart::Plus => match byte {
                b'v' | b'a' | b'f' => State::Done(Shape::Signs),
                _ => State::Dead,
            },
            OperatorPart::Minus => match byte {
                b'f' => State::Done(Shape::Signs),
                b'0' => State::Number(NumberPart::Zero),
                b'1'..=b'9' => State::Number(NumberPart::Decimal),
                _ => State::Dead,
            },
            OperatorPart::Product => match byte {
                b'f' => State::Done(Shape::Signs),
                _ => State::Dead,
            },
            OperatorPart::Less => match byte {
                b'<' | b'a' | b'f' => State::Done(Shape::Signs),
                b'=' => State::Operator(OperatorPart::Comparison),
                _ => State::Dead,
            },
            OperatorPart::Greater => match byte {
                b'a' | b'f' => State::Done(Shape::Signs),
                b'>' => State::Operator(OperatorPart::Shift),
                b'=' => State::Operator(OperatorPart::Comparison),
                _ => State::Dead,
            },
            OperatorPart::Shift => match byte {
                b'u' | b's' => State::Done(Shape::Signs),
                _ => State::Dead,
            },
            OperatorPart::Equal => match byte {
                b'=' => State::Operator(OperatorPart::Comparison),
                _ => State::Dead,
            },
            OperatorPart::Comparison => match byte {
                b'a' | b'f' => State::Done(Shape::Signs),
                _ => State::Dead,
            },
        }
    }

    /// Whether the bytes read are an operator.
    #[tactic(auto, unfolding(crate::specs::Automaton::accepts_operator))]
    fn accepts(self) -> Option<Shape>
        ensures { result ≡ accepts_operator self }
    {
        match self {
            OperatorPart::Plus => Some(Shape::Signs),
            OperatorPart::Minus => Some(Shape::Signs),
            OperatorPart::Product => Some(Shape::Signs),
            OperatorPart::Less => Some(Shape::Signs),
            OperatorPart::Greater => Some(Shape::Signs),
            OperatorPart::Shift => None,
            OperatorPart::Equal => None,
            OperatorPart::Comparison => Some(Shape::Signs),
        }
    }
}

/// What was read when a token begins with `byte`.
#[tactic(auto, unfolding(crate::specs::Automaton::after_start))]
fn after_start(byte: u8) -> State
    ensures { result ≡ after_start byte }
{
    match byte {
        b'0' => State::Number(NumberPart::Zero),
        b'1'..=b'9' => State::Number(NumberPart::Decimal),
        b'+' => State::Operator(OperatorPart::Plus),
        b'-' => State::Operator(OperatorPart::Minus),
        b'*' | b'/' => State::Operator(OperatorPart::Product),
        b'<' => State::Operator(OperatorPart::Less),
        b'>' => State::Operator(OperatorPart::Greater),
        b'=' | b'!' => State::Operator(OperatorPart::Equal),
        b'(' | b')' | b'[' | b']' | b':' => State::Done(Shape::Signs),
        _ => {
            if is_letter(byte) {
                State::Name(NamePart::Body)
            } else {
                State::Dead
            }
        }
    }
}

impl State {
    /// What was read when `byte` follows.
    #[tactic(auto, unfolding(crate::specs::Automaton::state_after_byte))]
    pub fn after(self, byte: u8) -> State
        ensures { result ≡ state_after_byte self byte }
    {
        match self {
            State::Start => after_start(byte),
            State::Name(part) => part.after(byte),
            State::Number(part) => part.after(byte),
            State::Operator(part) => part.after(byte),
            State::Done(_) | State::Dead => State::Dead,
        }
    }

    /// What the bytes read are, if they are a token.
    #[tactic(auto, unfolding(crate::specs::Automaton::accepts))]
    pub fn accepts(self) -> Option<Shape>
        ensures { result ≡ accepts self }
    {
        match self {
            State::Name(part) => part.accepts(),
            State::Number(part) => part.accepts(),
            State::Operator(part) => part.accepts(),
            State::Done(kind) => Some(kind),
            State::Start | State::Dead => None,
        }
    }

    /// Whether no token begins with the bytes read.
    pub fn is_dead(self) -> bool
        ensures { result ≡ is_dead self }
    {
        matches!(self, State::Dead)
    }
}
