//! Expressions one after the other.
ghost use Rattle.std.specs.Prelude.{map};
ghost use Rattle.cmm_grammar.specs.Rule as rule;
ghost use Rattle.cmm_grammar.specs.Grammar.{operands, sequence_to_close, sequence_to_with};
ghost use Rattle.cmm_tree.specs.View.{expr_view};
ghost use Rattle.cmm_parts.specs.Results.{trees, GivesReading, ReadsBy, many_of, test_of};
ghost use Rattle.cmm_operations.specs.Forms.{MayRead, ReadsForms};

use cmm_lex::Token;
use cmm_nodes::{Stop, sequence};
use cmm_parts::{Test, is_open, passes, simple, token};
use cmm_tree::Expr;
use std::alloc::Global;

/// The expression at the front.
///
/// # Errors
///
/// Where reading stops, and why; or `Stop::OutOfMemory`.
pub fn expression<'t, F: Fn(&'t [Token], u32, u32) -> Result<(Expr, &'t [Token]), Stop>>(
    forms: &F,
    alloc: Global,
    source: &[u8],
    tokens: &'t [Token],
    depth: u32,
) -> Result<(Expr, &'t [Token]), Stop>
    requires callable { MayRead (F.pre forms.now) depth }
    requires forms_read { ReadsForms (F.post forms.now) source.now depth }
    ensures { ReadsBy rule.Expr expr_view depth source.now tokens.now result }
{
    let Some((first, rest)) = tokens.split_first() else {
        return Err(Stop::Unexpected { left: 0 });
    };
    if !is_open(first.kind) {
        return simple(alloc, source, first, rest);
    }
    if depth == 0 {
        return Err(Stop::TooDeep { left: tokens.len() });
    }
    forms(rest, depth - 1, first.at)
}

/// The expression at the front, boxed.
///
/// # Errors
///
/// Where reading stops, and why; or `Stop::OutOfMemory`.
pub fn operand<'t, F: Fn(&'t [Token], u32, u32) -> Result<(Expr, &'t [Token]), Stop>>(
    forms: &F,
    alloc: Global,
    source: &[u8],
    tokens: &'t [Token],
    depth: u32,
) -> Result<(Box<Expr>, &'t [Token]), Stop>
    requires callable { MayRead (F.pre forms.now) depth }
    requires forms_read { ReadsForms (F.post forms.now) source.now depth }
    ensures { ReadsBy rule.Expr (λ b. expr_view b.value) depth source.now tokens.now result }
{
    let (expr, rest) = expression(forms, alloc, source, tokens, depth)?;
    Ok((Box::new(alloc, expr)?, rest))
}

/// The expressions up to a token that passes the test, which begins the rest.
///
/// # Errors
///
/// Where reading stops, and why; or `Stop::OutOfMemory`.
pub fn list<'t, F: Fn(&'t [Token], u32, u32) -> Result<(Expr, &'t [Token]), Stop>>(
    forms: &F,
    alloc: Global,
    source: &[u8],
    tokens: &'t [Token],
    depth: u32,
    stop: Test,
) -> Result<(Vec<Expr>, &'t [Token]), Stop>
    requires callable { MayRead (F.pre forms.now) depth }
    requires forms_read { ReadsForms (F.post forms.now) source.now depth }
    ensures { GivesReading (λ x. map expr_view x.0.items) (λ x. trees source.now x.1.now) result
        (many_of (test_of stop) rule.Expr depth (trees source.now tokens.now)) }
{
    let mut expressions = Vec::new(alloc);
    let mut rest = tokens;
    while let Some((first, _)) = rest.split_first() {
        if passes(source, stop, first) {
            return Ok((expressions, rest));
        }
        let (expr, behind) = expression(forms, alloc, source, rest, depth)?;
        expressions.push(expr)?;
        rest = behind;
    }
    Err(Stop::Unexpected { left: 0 })
}

/// The expressions up to the parenthesis that closes them.
///
/// # Errors
///
/// Where reading stops, and why; or `Stop::OutOfMemory`.
#[tactic(auto, unfolding(cmm_grammar::specs::Grammar::operands, cmm_grammar::specs::Grammar::a_token))]
pub fn operands<'t, F: Fn(&'t [Token], u32, u32) -> Result<(Expr, &'t [Token]), Stop>>(
    forms: &F,
    alloc: Global,
    source: &[u8],
    tokens: &'t [Token],
    depth: u32,
) -> Result<(Vec<Expr>, &'t [Token]), Stop>
    requires callable { MayRead (F.pre forms.now) depth }
    requires forms_read { ReadsForms (F.post forms.now) source.now depth }
    ensures { ReadsBy operands (λ es. map expr_view es.items) depth source.now tokens.now result }
{
    let (expressions, rest) = list(forms, alloc, source, tokens, depth, Test::Close)?;
    let (_, rest) = token(source, rest, Test::Close)?;
    Ok((expressions, rest))
}

/// Expressions up to the parenthesis that closes them, as one.
///
/// # Errors
///
/// Where reading stops, and why; or `Stop::OutOfMemory`.
#[tactic(auto, unfolding(cmm_grammar::specs::Grammar::sequence_to_close))]
pub fn sequence_to_close<'t, F: Fn(&'t [Token], u32, u32) -> Result<(Expr, &'t [Token]), Stop>>(
    forms: &F,
    alloc: Global,
    source: &[u8],
    tokens: &'t [Token],
    depth: u32,
) -> Result<(Expr, &'t [Token]), Stop>
    requires callable { MayRead (F.pre forms.now) depth }
    requires forms_read { ReadsForms (F.post forms.now) source.now depth }
    ensures { ReadsBy sequence_to_close expr_view depth source.now tokens.now result }
{
    let (first, rest) = operand(forms, alloc, source, tokens, depth)?;
    let (more, rest) = operands(forms, alloc, source, rest, depth)?;
    Ok((sequence(first, more)?, rest))
}

/// Expressions up to the parenthesis that closes them, as one, boxed.
///
/// # Errors
///
/// Where reading stops, and why; or `Stop::OutOfMemory`.
pub fn body_to_close<'t, F: Fn(&'t [Token], u32, u32) -> Result<(Expr, &'t [Token]), Stop>>(
    forms: &F,
    alloc: Global,
    source: &[u8],
    tokens: &'t [Token],
    depth: u32,
) -> Result<(Box<Expr>, &'t [Token]), Stop>
    requires callable { MayRead (F.pre forms.now) depth }
    requires forms_read { ReadsForms (F.post forms.now) source.now depth }
    ensures { ReadsBy sequence_to_close (λ b. expr_view b.value) depth
        source.now tokens.now result }
{
    let (body, rest) = sequence_to_close(forms, alloc, source, tokens, depth)?;
    Ok((Box::new(alloc, body)?, rest))
}

/// Expressions up to `with`, as one.
#[tactic(auto, unfolding(cmm_grammar::specs::Grammar::sequence_to_with, cmm_grammar::specs::Grammar::a_token))]
fn sequence_to_with<'t, F: Fn(&'t [Token], u32, u32) -> Result<(Expr, &'t [Token]), Stop>>(
    forms: &F,
    alloc: Global,
    source: &[u8],
    tokens: &'t [Token],
    depth: u32,
) -> Result<(Expr, &'t [Token]), Stop>
    requires callable { MayRead (F.pre forms.now) depth }
    requires forms_read { ReadsForms (F.post forms.now) source.now depth }
    ensures { ReadsBy sequence_to_with expr_view depth source.now tokens.now result }
{
    let (first, rest) = operand(forms, alloc, source, tokens, depth)?;
    let (more, rest) = list(forms, alloc, source, rest, depth, Test::With)?;
    let (_, rest) = token(source, rest, Test::With)?;
    Ok((sequence(first, more)?, rest))
}

/// Expressions up to `with`, as one, boxed.
///
/// # Errors
///
/// Where reading stops, and why; or `Stop::OutOfMemory`.
pub fn body_to_with<'t, F: Fn(&'t [Token], u32, u32) -> Result<(Expr, &'t [Token]), Stop>>(
    forms: &F,
    alloc: Global,
    source: &[u8],
    tokens: &'t [Token],
    depth: u32,
) -> Result<(Box<Expr>, &'t [Token]), Stop>
    requires callable { MayRead (F.pre forms.now) depth }
    requires forms_read { ReadsForms (F.post forms.now) source.now depth }
    ensures { ReadsBy sequence_to_with (λ b. expr_view b.value) depth source.now tokens.now result }
{
    let (body, rest) = sequence_to_with(forms, alloc, source, tokens, depth)?;
    Ok((Box::new(alloc, body)?, rest))
}
