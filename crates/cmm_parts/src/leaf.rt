//! Expressions of one token, and brackets.
ghost use Rattle.std.specs.Prelude.{◌≡◌, IfOk, IfErr, option_map};
ghost use Rattle.cmm_lex.specs.Token.{token_view};
ghost use Rattle.cmm_grammar.specs.Words.{leaf_of};
ghost use Rattle.cmm_grammar.specs.Reading.{bracket_at};
ghost use Rattle.cmm_tree.specs.View.{expr_view};
ghost use Rattle.cmm_parts.specs.Results.{trees, GivesReading, ReadsTokens};
ghost use Rattle.cmm_parts.specs.Parts.{symbol_leaf, simple_at};
ghost use Rattle.cmm_nodes.specs.declared.stop.Stop.TheVariants.{OutOfMemory};

use crate::front::{name_of, word};
use bs_words::{Name, is_symbol};
use cmm_lex::{Keyword, Sign, Token, TokenKind, string_of};
use cmm_nodes::node::node;
use cmm_nodes::{Stop, UnexpectedToken, exit_to, float_leaf};
use cmm_tree::{Expr, Form, Label};
use std::alloc::Global;

/// The symbol that a string is, if it is one.
fn symbol_leaf(alloc: Global, source: &[u8], token: &Token) -> Result<Option<Expr>, Stop>
    ensures leaf { IfOk result (λ o. option_map expr_view o
        ≡ symbol_leaf (token_view source.now token.now)) }
    ensures error { IfErr result (λ e. e ≡ OutOfMemory) }
{
    let name = Name::from_vec(string_of(alloc, source, token)?.into_vec());
    if is_symbol(name.as_bytes()) {
        Ok(Some(node(token.at, Form::Symbol(name))))
    } else {
        Ok(None)
    }
}

/// The expression of one token, if it is one.
fn leaf_of(alloc: Global, source: &[u8], token: &Token) -> Result<Option<Expr>, Stop>
    ensures leaf { IfOk result (λ o. option_map expr_view o
        ≡ leaf_of (token_view source.now token.now)) }
    ensures error { IfErr result (λ e. e ≡ OutOfMemory) }
{
    let at = token.at;
    match token.kind {
        TokenKind::Integer => Ok(Some(node(at, Form::Integer(word(source, token))))),
        TokenKind::Pointer => Ok(Some(node(at, Form::Pointer(word(source, token))))),
        TokenKind::Float => Ok(Some(float_leaf(alloc, at))),
        TokenKind::String => symbol_leaf(alloc, source, token),
        TokenKind::Name => Ok(Some(node(at, Form::Name(name_of(alloc, source, token)?)))),
        TokenKind::Keyword(Keyword::Exit) => Ok(Some(exit_to(alloc, at, Label::Bare))),
        TokenKind::Keyword(_)
        | TokenKind::Operator(_)
        | TokenKind::FloatOperator
        | TokenKind::Sign(_) => Ok(None),
    }
}

/// The second of two brackets.
fn bracket<'t>(
    source: &[u8],
    tokens: &'t [Token],
    at: u32,
) -> Result<(Expr, &'t [Token]), UnexpectedToken>
    ensures { ReadsTokens (λ x. expr_view x.0) (λ x. trees source.now x.1.now) result
        (bracket_at at (trees source.now tokens.now)) }
{
    match tokens.split_first() {
        Some((first, rest)) if matches!(first.kind, TokenKind::Sign(Sign::CloseBracket)) => {
            Ok((node(at, Form::Nothing), rest))
        }
        _ => Err(UnexpectedToken { left: tokens.len() }),
    }
}

/// The expression of this token, or of two brackets, and what follows.
///
/// # Errors
///
/// `Stop::Unexpected` where this token is no expression, or where the second bracket is not there.
pub fn simple<'t>(
    alloc: Global,
    source: &[u8],
    first: &Token,
    rest: &'t [Token],
) -> Result<(Expr, &'t [Token]), Stop>
    ensures { GivesReading (λ x. expr_view x.0) (λ x. trees source.now x.1.now) result
        (simple_at (token_view source.now first.now) (trees source.now rest.now)) }
{
    if matches!(first.kind, TokenKind::Sign(Sign::OpenBracket)) {
        return Ok(bracket(source, rest, first.at)?);
    }
    match leaf_of(alloc, source, first)? {
        Some(leaf) => Ok((leaf, rest)),
        None => Err(Stop::Unexpected {
            left: rest.len() + 1,
        }),
    }
}
