//! The lexer: a text as its tokens, each the longest that fits.
ghost use Rattle.std.specs.Prelude.{◌≡◌, ◌≤◌, length, take, drop, IfOk};
ghost use Rattle.bs_words.specs.Contents.{contents};
ghost use Rattle.cmm_lex.specs.Integers.{integer_value};
ghost use Rattle.cmm_lex.specs.Lexing.{IsLexed};
ghost use Rattle.cmm_lex.specs.Scanning.{range_of};
ghost use Rattle.bs_fault.specs.Limits.{longest_text};
ghost use Rattle.cmm_lex.specs.Strings.{string_bytes};
ghost use Rattle.cmm_lex.specs.Token.{token_view};

use crate::front::{Front, read_front};
use crate::integers::integer_value;
use crate::strings::string_value;
use crate::token::{Token, TokenKind};
use bs_fault::Fault;
use bs_words::List;
use std::alloc::{AllocError, Global};

/// What a text is cut into.
#[derive(Drop)]
pub struct Lexed {
    /// The tokens before the first `BadToken` or `Unclosed`, in order.
    pub tokens: List<Token>,
    /// The first `BadToken` or `Unclosed`.
    pub fault: Option<Fault>,
    /// The first `IntRange` among the tokens.
    pub range: Option<Fault>,
}

/// The fault of an integer or a pointer that is out of range.
fn range_fault(at: u32, kind: TokenKind, text: &[u8]) -> Option<Fault>
    ensures { result ≡ range_of at kind text.now }
{
    match kind {
        TokenKind::Integer | TokenKind::Pointer => match integer_value(text) {
            None => Some(Fault::IntRange { at }),
            Some(_) => None,
        },
        TokenKind::Name
        | TokenKind::Float
        | TokenKind::String
        | TokenKind::Keyword(_)
        | TokenKind::Operator(_)
        | TokenKind::FloatOperator
        | TokenKind::Sign(_) => None,
    }
}

/// The tokens of a text, each the longest that fits, up to the first `BadToken` or `Unclosed`; that
/// fault; and the first `IntRange` among the tokens. The only error is want of memory.
pub fn lex(alloc: Global, text: &[u8]) -> Result<Lexed, AllocError>
    requires { length text.now ≤ longest_text }
    ensures { IfOk result (λ lexed. IsLexed text.now lexed) }
{
    let mut tokens = Vec::new(alloc);
    let mut range = None;
    let mut rest = text;
    let mut at: u32 = 0;
    while !rest.is_empty() {
        match read_front(rest) {
            Front::Gap(behind) => {
                at += (rest.len() - behind.len()) as u32;
                rest = behind;
            }
            Front::Token(kind, behind) => {
                let (spelling, _) = rest.split_at(rest.len() - behind.len());
                let end = at + spelling.len() as u32;
                tokens.push(Token { at, end, kind })?;
                range = range.or(range_fault(at, kind, spelling));
                at = end;
                rest = behind;
            }
            Front::BadToken(offset) => {
                let fault = Some(Fault::BadToken {
                    at: at + offset as u32,
                });
                return Ok(Lexed {
                    tokens: List::from_vec(tokens),
                    fault,
                    range,
                });
            }
            Front::Unclosed => {
                return Ok(Lexed {
                    tokens: List::from_vec(tokens),
                    fault: Some(Fault::Unclosed { at }),
                    range,
                });
            }
        }
    }
    Ok(Lexed {
        tokens: List::from_vec(tokens),
        fault: None,
        range,
    })
}

/// So many bytes in front, or all.
fn in_front(bytes: &[u8], len: usize) -> &[u8]
    ensures { result.now ≡ take len bytes.now }
{
    if len <= bytes.len() {
        let (front, _) = bytes.split_at(len);
        front
    } else {
        bytes
    }
}

/// The bytes after so many, or none.
fn past(bytes: &[u8], len: usize) -> &[u8]
    ensures { result.now ≡ drop len bytes.now }
{
    if len <= bytes.len() {
        let (_, behind) = bytes.split_at(len);
        behind
    } else {
        let (_, behind) = bytes.split_at(bytes.len());
        behind
    }
}

/// The text of a token of this source.
pub fn text_of<'a>(source: &'a [u8], token: &Token) -> &'a [u8]
    ensures { result.now ≡ (token_view source.now token.now).text }
{
    in_front(
        past(source, token.at as usize),
        token.end.saturating_sub(token.at) as usize,
    )
}

/// The 64-bit word that an integer or a pointer of this source stands for; `None` where it is out of
/// range.
pub fn integer_word(source: &[u8], token: &Token) -> Option<u64>
    ensures { result ≡ integer_value (token_view source.now token.now).text }
{
    integer_value(text_of(source, token))
}

/// The bytes that a string of this source stands for: those between its quotes, each escape replaced.
/// The only error is want of memory.
pub fn string_of(alloc: Global, source: &[u8], token: &Token) -> Result<List<u8>, AllocError>
    ensures { let text = (token_view source.now token.now).text in IfOk result (λ bytes.
        contents bytes ≡ string_bytes text) }
{
    string_value(alloc, text_of(source, token))
}
