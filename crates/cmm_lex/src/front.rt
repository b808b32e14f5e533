//! What a text begins with.
ghost use Rattle.std.specs.Prelude.{◌≡◌, ◌∷◌, ◌<◌, ◌≤◌, length, None};
ghost use Rattle.cmm_lex.specs.Automaton.{scan};
ghost use Rattle.cmm_lex.specs.Scanning.{IsFront, FirstToken, opening_of};
ghost use Rattle.bs_fault.specs.Limits.{longest_text};
ghost use Rattle.cmm_lex.specs.declared.state.State.TheVariants.{Start};

use crate::enclosed::{behind_braces, behind_comment, behind_string};
use crate::state::{Shape, State};
use crate::strings::bad_escape;
use crate::token::TokenKind;
use crate::words::kind_of;

/// What is at the front of a text that is not empty.
#[derive(Clone, Copy)]
pub enum Front<'a> {
    /// Bytes between tokens, and the bytes after them.
    Gap(&'a [u8]),
    /// A token, and the bytes after it.
    Token(TokenKind, &'a [u8]),
    /// No token begins after so many bytes.
    BadToken(usize),
    /// A string, a comment or a brace is not closed.
    Unclosed,
}

/// The shape and the length of the longest token at the front that is no string.
fn longest_token(bytes: &[u8]) -> Option<(Shape, usize)>
    ensures { result ≡ scan Start 0 None bytes.now }
{
    let mut state = State::Start;
    let mut found = None;
    let mut rest = bytes;
    let mut len = 0;
    while let Some((byte, tail)) = rest.split_first() {
        state = state.after(*byte);
        if state.is_dead() {
            break;
        }
        len += 1;
        if let Some(shape) = state.accepts() {
            found = Some((shape, len));
        }
        rest = tail;
    }
    found
}

/// The longest token at the front that is no string, and the bytes after it.
fn first_token(bytes: &[u8]) -> Option<(TokenKind, &[u8])>
    ensures { FirstToken bytes.now result }
{
    let (shape, len) = longest_token(bytes)?;
    let (text, rest) = bytes.split_at(len);
    Some((kind_of(shape, text)?, rest))
}

/// What a text begins with whose first byte is a quote; the bytes are those after it.
fn after_quote(bytes: &[u8]) -> Front<'_>
    requires { length bytes.now ≤ longest_text }
    ensures { IsFront (34 ∷ bytes.now) result }
{
    let Some(behind) = behind_string(bytes) else {
        return Front::Unclosed;
    };
    let (inside, rest) = bytes.split_at(bytes.len() - behind.len());
    match bad_escape(inside) {
        Some(offset) => Front::BadToken(1 + offset),
        None => Front::Token(TokenKind::String, rest),
    }
}

/// What a text begins with by its first bytes.
#[derive(Clone, Copy)]
enum Opening {
    Separator,
    Quote,
    Comment,
    Brace,
    Other,
}

/// Which of them a text begins with.
fn read_opening(bytes: &[u8]) -> Opening
    ensures { result ≡ opening_of bytes.now }
{
    match bytes {
        [b' ' | b'\t' | b'\n' | b'\x0C' | b'\r', ..] => Opening::Separator,
        [b'"', ..] => Opening::Quote,
        [b'{', ..] => Opening::Brace,
        [b'(', b'*', ..] => Opening::Comment,
        _ => Opening::Other,
    }
}

/// What is at the front of a text.
pub fn read_front(bytes: &[u8]) -> Front<'_>
    requires some { 0 < length bytes.now }
    requires short { length bytes.now ≤ longest_text }
    ensures { IsFront bytes.now result }
{
    match read_opening(bytes) {
        Opening::Separator => {
            let (_, rest) = bytes.split_at(1);
            Front::Gap(rest)
        }
        Opening::Quote => {
            let (_, inside) = bytes.split_at(1);
            after_quote(inside)
        }
        Opening::Brace => {
            let (_, inside) = bytes.split_at(1);
            match behind_braces(inside) {
                Some(rest) => Front::Gap(rest),
                None => Front::Unclosed,
            }
        }
        Opening::Comment => {
            let (_, inside) = bytes.split_at(2);
            match behind_comment(inside) {
                Some(rest) => Front::Gap(rest),
                None => Front::Unclosed,
            }
        }
        Opening::Other => match first_token(bytes) {
            Some((kind, rest)) => Front::Token(kind, rest),
            None => Front::BadToken(0),
        },
    }
}
