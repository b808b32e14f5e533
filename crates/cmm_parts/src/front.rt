//! Single tokens at the front of those that are left.
ghost use Rattle.std.specs.Prelude.{◌≡◌, IfOk, IfErr};
ghost use Rattle.cmm_lex.specs.Token.{token_view};
ghost use Rattle.cmm_lex.specs.Integers.{integer_value};
ghost use Rattle.cmm_grammar.specs.Words.{passing, marked, word_or_zero, comp_of, ret_of, head_of};
ghost use Rattle.cmm_grammar.specs.Grammar.{a_comp, a_result};
ghost use Rattle.cmm_grammar.specs.Reading.{one_by, reads};
ghost use Rattle.cmm_tree.specs.View.{declared_view};
ghost use Rattle.cmm_parts.specs.Results.{trees, GivesReading, ReadsBy, test_of};
ghost use Rattle.cmm_parts.specs.Parts.{result_part, symbol_in};
ghost use Rattle.cmm_nodes.specs.declared.stop.Stop.TheVariants.{OutOfMemory};

use crate::words;
use bs_words::{Name, Ret, is_symbol};
use cmm_grammar::Head;
use cmm_lex::{Keyword, Sign, Token, TokenKind, integer_word, string_of, text_of};
use cmm_nodes::Stop;
use cmm_tree::Declared;
use std::alloc::Global;

/// What a token is asked for.
#[derive(Clone, Copy)]
pub enum Test {
    /// The keyword `alloc`.
    Alloc,
    /// The sign `)`.
    Close,
    /// The sign `:`.
    Colon,
    /// A name.
    Name,
    /// An integer.
    Integer,
    /// A float.
    Float,
    /// A string.
    String,
    /// The keyword `with`.
    With,
    /// The keyword `case`.
    Case,
    /// Any token but `case`.
    NoCase,
    /// A component or `unit`.
    Result,
    /// What ends the expressions of a case: the next case, or the end of the switch.
    EndsCase,
    /// What ends the expressions of a labelled handler: the next handler, or the end of the catch.
    EndsHandler,
}

/// Whether a token passes a test.
pub fn passes(source: &[u8], test: Test, token: &Token) -> bool
    ensures { result ≡ test_of test (token_view source.now token.now) }
{
    let kind = token.kind;
    match test {
        Test::Alloc => matches!(kind, TokenKind::Keyword(Keyword::Alloc)),
        Test::Close => words::is_close(kind),
        Test::Colon => matches!(kind, TokenKind::Sign(Sign::Colon)),
        Test::Name => matches!(kind, TokenKind::Name),
        Test::Integer => matches!(kind, TokenKind::Integer),
        Test::Float => matches!(kind, TokenKind::Float),
        Test::String => matches!(kind, TokenKind::String),
        Test::With => matches!(kind, TokenKind::Keyword(Keyword::With)),
        Test::Case => words::is_case(kind),
        Test::NoCase => !words::is_case(kind),
        Test::Result => words::ret_of(kind).is_some(),
        Test::EndsCase => words::is_case(kind) || words::is_close(kind),
        Test::EndsHandler => words::is_and(kind) || words::is_close(kind),
    }
}

/// The token at the front, which passes the test.
///
/// # Errors
///
/// `Stop::Unexpected` where another token is there, or none.
pub fn token<'t>(
    source: &[u8],
    tokens: &'t [Token],
    test: Test,
) -> Result<(Token, &'t [Token]), Stop>
    ensures { GivesReading (λ x. token_view source.now x.0) (λ x. trees source.now x.1.now) result
        (one_by (passing (test_of test)) (trees source.now tokens.now)) }
{
    match tokens.split_first() {
        Some((first, rest)) => {
            if passes(source, test, first) {
                Ok((*first, rest))
            } else {
                Err(Stop::Unexpected { left: tokens.len() })
            }
        }
        None => Err(Stop::Unexpected { left: 0 }),
    }
}

/// The component at the front.
///
/// # Errors
///
/// `Stop::Unexpected` where another token is there, or none.
#[tactic(auto, unfolding(cmm_grammar::specs::Grammar::a_comp))]
pub fn component<'t>(
    source: &[u8],
    tokens: &'t [Token],
    depth: u32,
) -> Result<(Declared, &'t [Token]), Stop>
    ensures { ReadsBy a_comp declared_view depth source.now tokens.now result }
{
    let Some((first, rest)) = tokens.split_first() else {
        return Err(Stop::Unexpected { left: 0 });
    };
    match words::comp_of(first.kind) {
        Some(comp) => Ok((Declared { at: first.at, comp }, rest)),
        None => Err(Stop::Unexpected { left: tokens.len() }),
    }
}

/// The result that a call declares at the front, and its place.
///
/// # Errors
///
/// `Stop::Unexpected` where another token is there, or none.
#[tactic(auto, unfolding(cmm_grammar::specs::Grammar::a_result))]
pub fn call_result<'t>(
    source: &[u8],
    tokens: &'t [Token],
    depth: u32,
) -> Result<(u32, Ret, &'t [Token]), Stop>
    ensures { GivesReading (λ x. result_part x.0 x.1) (λ x. trees source.now x.2.now) result
        (reads a_result depth (trees source.now tokens.now)) }
{
    let Some((first, rest)) = tokens.split_first() else {
        return Err(Stop::Unexpected { left: 0 });
    };
    match words::ret_of(first.kind) {
        Some(ret) => Ok((first.at, ret, rest)),
        None => Err(Stop::Unexpected { left: tokens.len() }),
    }
}

/// The word of a form at the front: its token, and what it begins.
///
/// # Errors
///
/// `Stop::Unexpected` where another token is there, or none.
pub fn head<'t>(source: &[u8], tokens: &'t [Token]) -> Result<(Token, Head, &'t [Token]), Stop>
    ensures { GivesReading (λ x. (token_view source.now x.0, x.1)) (λ x. trees source.now x.2.now) result
        (one_by (marked head_of) (trees source.now tokens.now)) }
{
    let Some((first, rest)) = tokens.split_first() else {
        return Err(Stop::Unexpected { left: 0 });
    };
    match words::head_of(first.kind) {
        Some(head) => Ok((*first, head, rest)),
        None => Err(Stop::Unexpected { left: tokens.len() }),
    }
}

/// The name that a token is.
///
/// # Errors
///
/// `Stop::OutOfMemory` alone.
pub fn name_of(alloc: Global, source: &[u8], token: &Token) -> Result<Name, Stop>
    ensures name { IfOk result (λ name. name ≡ (token_view source.now token.now).text) }
    ensures error { IfErr result (λ e. e ≡ OutOfMemory) }
{
    Ok(Name::from_vec(Vec::from_slice(alloc, text_of(source, token))?))
}

/// The word of an integer or a pointer; 0 where it is out of range.
pub fn word(source: &[u8], token: &Token) -> u64
    ensures { result ≡ word_or_zero (integer_value (token_view source.now token.now).text) }
{
    integer_word(source, token).unwrap_or(0)
}

/// The symbol that a token is, if it is one.
///
/// # Errors
///
/// `Stop::OutOfMemory` alone.
pub fn symbol_of(alloc: Global, source: &[u8], token: &Token) -> Result<Option<Name>, Stop>
    ensures symbol { IfOk result (λ o. o ≡ symbol_in (token_view source.now token.now)) }
    ensures error { IfErr result (λ e. e ≡ OutOfMemory) }
{
    if !matches!(token.kind, TokenKind::String) {
        return Ok(None);
    }
    let name = Name::from_vec(string_of(alloc, source, token)?.into_vec());
    if is_symbol(name.as_bytes()) {
        Ok(Some(name))
    } else {
        Ok(None)
    }
}
