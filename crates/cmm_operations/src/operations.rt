//! The forms that compute with expressions.
ghost use Rattle.cmm_grammar.specs.Grammar.{assign_form, app_form, extcall_rest, extcall_form, alloc_form, load_rest};
ghost use Rattle.cmm_grammar.specs.Grammar.{store_rest, load_form, store_form, raise_form, pair_form, triple_form};
ghost use Rattle.cmm_grammar.specs.Grammar.{float_form, seq_form};
ghost use Rattle.cmm_tree.specs.View.{expr_view};
ghost use Rattle.cmm_parts.specs.Results.{ReadsBy};
ghost use Rattle.cmm_operations.specs.Forms.{MayRead, ReadsForms};

use crate::lists::{list, operand, operands};
use cmm_grammar::{Pair, Triple};
use cmm_lex::Token;
use cmm_nodes::{
    PlacedChunk, Stop, alloc_node, app_node, assign_node, extcall_node, float_node, loaded, paired,
    raise_node, sequence_at, stored, tripled,
};
use cmm_parts::{Test, call_result, chunk, name_of, passes, symbol, token, word};
use cmm_tree::Expr;
use std::alloc::Global;

/// A new value for a mutable name.
///
/// # Errors
///
/// Where reading stops, and why; or `Stop::OutOfMemory`.
#[tactic(auto, unfolding(cmm_grammar::specs::Grammar::assign_form, cmm_grammar::specs::Grammar::a_token))]
pub fn assign_form<'t, F: Fn(&'t [Token], u32, u32) -> Result<(Expr, &'t [Token]), Stop>>(
    forms: &F,
    alloc: Global,
    source: &[u8],
    tokens: &'t [Token],
    depth: u32,
    at: u32,
) -> Result<(Expr, &'t [Token]), Stop>
    requires callable { MayRead (F.pre forms.now) depth }
    requires forms_read { ReadsForms (F.post forms.now) source.now depth }
    ensures { ReadsBy (assign_form at) expr_view depth source.now tokens.now result }
{
    let (name, rest) = token(source, tokens, Test::Name)?;
    let text = name_of(alloc, source, &name)?;
    let (value, rest) = operand(forms, alloc, source, rest, depth)?;
    let (_, rest) = token(source, rest, Test::Close)?;
    Ok((assign_node(at, name.at, text, value), rest))
}

/// A call of what an expression gives.
///
/// # Errors
///
/// Where reading stops, and why; or `Stop::OutOfMemory`.
#[tactic(auto, unfolding(cmm_grammar::specs::Grammar::app_form, cmm_grammar::specs::Grammar::arguments_of, cmm_grammar::specs::Grammar::a_token))]
pub fn app_form<'t, F: Fn(&'t [Token], u32, u32) -> Result<(Expr, &'t [Token]), Stop>>(
    forms: &F,
    alloc: Global,
    source: &[u8],
    tokens: &'t [Token],
    depth: u32,
    at: u32,
) -> Result<(Expr, &'t [Token]), Stop>
    requires callable { MayRead (F.pre forms.now) depth }
    requires forms_read { ReadsForms (F.post forms.now) source.now depth }
    ensures { ReadsBy (app_form at) expr_view depth source.now tokens.now result }
{
    let (callee, rest) = operand(forms, alloc, source, tokens, depth)?;
    let (arguments, rest) = list(forms, alloc, source, rest, depth, Test::Result)?;
    let (result_at, ret, rest) = call_result(source, rest, depth)?;
    let (_, rest) = token(source, rest, Test::Close)?;
    Ok((app_node(at, callee, arguments, result_at, ret), rest))
}

/// A call of what lies outside, from its symbol on.
#[tactic(auto, unfolding(cmm_grammar::specs::Grammar::extcall_rest, cmm_grammar::specs::Grammar::arguments_of, cmm_grammar::specs::Grammar::a_token))]
fn extcall_rest<'t, F: Fn(&'t [Token], u32, u32) -> Result<(Expr, &'t [Token]), Stop>>(
    forms: &F,
    alloc: Global,
    source: &[u8],
    tokens: &'t [Token],
    depth: u32,
    at: u32,
    frame: bool,
) -> Result<(Expr, &'t [Token]), Stop>
    requires callable { MayRead (F.pre forms.now) depth }
    requires forms_read { ReadsForms (F.post forms.now) source.now depth }
    ensures { ReadsBy (extcall_rest at frame) expr_view depth source.now tokens.now result }
{
    let (_, name, rest) = symbol(alloc, source, tokens)?;
    let (arguments, rest) = list(forms, alloc, source, rest, depth, Test::Result)?;
    let (result_at, ret, rest) = call_result(source, rest, depth)?;
    let (_, rest) = token(source, rest, Test::Close)?;
    Ok((
        extcall_node(at, frame, name, arguments, result_at, ret),
        rest,
    ))
}

/// A call of what lies outside: a frame call where `alloc` comes before its symbol.
///
/// # Errors
///
/// Where reading stops, and why; or `Stop::OutOfMemory`.
#[tactic(auto, unfolding(cmm_grammar::specs::Grammar::extcall_form))]
pub fn extcall_form<'t, F: Fn(&'t [Token], u32, u32) -> Result<(Expr, &'t [Token]), Stop>>(
    forms: &F,
    alloc: Global,
    source: &[u8],
    tokens: &'t [Token],
    depth: u32,
    at: u32,
) -> Result<(Expr, &'t [Token]), Stop>
    requires callable { MayRead (F.pre forms.now) depth }
    requires forms_read { ReadsForms (F.post forms.now) source.now depth }
    ensures { ReadsBy (extcall_form at) expr_view depth source.now tokens.now result }
{
    let Some((first, rest)) = tokens.split_first() else {
        return Err(Stop::Unexpected { left: 0 });
    };
    if passes(source, Test::Alloc, first) {
        return extcall_rest(forms, alloc, source, rest, depth, at, true);
    }
    extcall_rest(forms, alloc, source, tokens, depth, at, false)
}

/// A new block.
///
/// # Errors
///
/// Where reading stops, and why; or `Stop::OutOfMemory`.
#[tactic(auto, unfolding(cmm_grammar::specs::Grammar::alloc_form, cmm_grammar::specs::Grammar::a_token))]
pub fn alloc_form<'t, F: Fn(&'t [Token], u32, u32) -> Result<(Expr, &'t [Token]), Stop>>(
    forms: &F,
    alloc: Global,
    source: &[u8],
    tokens: &'t [Token],
    depth: u32,
    at: u32,
) -> Result<(Expr, &'t [Token]), Stop>
    requires callable { MayRead (F.pre forms.now) depth }
    requires forms_read { ReadsForms (F.post forms.now) source.now depth }
    ensures { ReadsBy (alloc_form at) expr_view depth source.now tokens.now result }
{
    let (header, rest) = token(source, tokens, Test::Integer)?;
    let (operands, rest) = operands(forms, alloc, source, rest, depth)?;
    let header_word = word(source, &header);
    Ok((alloc_node(at, header.at, header_word, operands), rest))
}

/// What a load takes, after its chunk.
#[tactic(auto, unfolding(cmm_grammar::specs::Grammar::load_rest, cmm_grammar::specs::Grammar::a_token))]
fn load_rest<'t, F: Fn(&'t [Token], u32, u32) -> Result<(Expr, &'t [Token]), Stop>>(
    forms: &F,
    alloc: Global,
    source: &[u8],
    tokens: &'t [Token],
    depth: u32,
    at: u32,
    chunk: PlacedChunk,
) -> Result<(Expr, &'t [Token]), Stop>
    requires callable { MayRead (F.pre forms.now) depth }
    requires forms_read { ReadsForms (F.post forms.now) source.now depth }
    ensures { ReadsBy (load_rest at chunk.chunk chunk.at) expr_view depth
        source.now tokens.now result }
{
    let (address, rest) = operand(forms, alloc, source, tokens, depth)?;
    let (_, rest) = token(source, rest, Test::Close)?;
    Ok((loaded(alloc, at, chunk, address)?, rest))
}

/// A `load`.
///
/// # Errors
///
/// Where reading stops, and why; or `Stop::OutOfMemory`.
#[tactic(auto, unfolding(cmm_grammar::specs::Grammar::load_form))]
pub fn load_form<'t, F: Fn(&'t [Token], u32, u32) -> Result<(Expr, &'t [Token]), Stop>>(
    forms: &F,
    alloc: Global,
    source: &[u8],
    tokens: &'t [Token],
    depth: u32,
    at: u32,
) -> Result<(Expr, &'t [Token]), Stop>
    requires callable { MayRead (F.pre forms.now) depth }
    requires forms_read { ReadsForms (F.post forms.now) source.now depth }
    ensures { ReadsBy (load_form at) expr_view depth source.now tokens.now result }
{
    let (chunk, rest) = chunk(source, tokens)?;
    load_rest(forms, alloc, source, rest, depth, at, chunk)
}

/// What a store takes, after its chunk.
#[tactic(auto, unfolding(cmm_grammar::specs::Grammar::store_rest, cmm_grammar::specs::Grammar::a_token))]
fn store_rest<'t, F: Fn(&'t [Token], u32, u32) -> Result<(Expr, &'t [Token]), Stop>>(
    forms: &F,
    alloc: Global,
    source: &[u8],
    tokens: &'t [Token],
    depth: u32,
    at: u32,
    chunk: PlacedChunk,
) -> Result<(Expr, &'t [Token]), Stop>
    requires callable { MayRead (F.pre forms.now) depth }
    requires forms_read { ReadsForms (F.post forms.now) source.now depth }
    ensures { ReadsBy (store_rest at chunk.chunk chunk.at) expr_view depth
        source.now tokens.now result }
{
    let (address, rest) = operand(forms, alloc, source, tokens, depth)?;
    let (value, rest) = operand(forms, alloc, source, rest, depth)?;
    let (_, rest) = token(source, rest, Test::Close)?;
    Ok((stored(alloc, at, chunk, address, value)?, rest))
}

/// A `store`.
///
/// # Errors
///
/// Where reading stops, and why; or `Stop::OutOfMemory`.
#[tactic(auto, unfolding(cmm_grammar::specs::Grammar::store_form))]
pub fn store_form<'t, F: Fn(&'t [Token], u32, u32) -> Result<(Expr, &'t [Token]), Stop>>(
    forms: &F,
    alloc: Global,
    source: &[u8],
    tokens: &'t [Token],
    depth: u32,
    at: u32,
) -> Result<(Expr, &'t [Token]), Stop>
    requires callable { MayRead (F.pre forms.now) depth }
    requires forms_read { ReadsForms (F.post forms.now) source.now depth }
    ensures { ReadsBy (store_form at) expr_view depth source.now tokens.now result }
{
    let (chunk, rest) = chunk(source, tokens)?;
    store_rest(forms, alloc, source, rest, depth, at, chunk)
}

/// A raise.
///
/// # Errors
///
/// Where reading stops, and why; or `Stop::OutOfMemory`.
#[tactic(auto, unfolding(cmm_grammar::specs::Grammar::raise_form, cmm_grammar::specs::Grammar::a_token))]
pub fn raise_form<'t, F: Fn(&'t [Token], u32, u32) -> Result<(Expr, &'t [Token]), Stop>>(
    forms: &F,
    alloc: Global,
    source: &[u8],
    tokens: &'t [Token],
    depth: u32,
    at: u32,
) -> Result<(Expr, &'t [Token]), Stop>
    requires callable { MayRead (F.pre forms.now) depth }
    requires forms_read { ReadsForms (F.post forms.now) source.now depth }
    ensures { ReadsBy (raise_form at) expr_view depth source.now tokens.now result }
{
    let (value, rest) = operand(forms, alloc, source, tokens, depth)?;
    let (_, rest) = token(source, rest, Test::Close)?;
    Ok((raise_node(at, value), rest))
}

/// A form of two operands.
///
/// # Errors
///
/// Where reading stops, and why; or `Stop::OutOfMemory`.
#[tactic(auto, unfolding(cmm_grammar::specs::Grammar::pair_form, cmm_grammar::specs::Grammar::a_token))]
pub fn pair_form<'t, F: Fn(&'t [Token], u32, u32) -> Result<(Expr, &'t [Token]), Stop>>(
    forms: &F,
    alloc: Global,
    source: &[u8],
    tokens: &'t [Token],
    depth: u32,
    at: u32,
    pair: Pair,
) -> Result<(Expr, &'t [Token]), Stop>
    requires callable { MayRead (F.pre forms.now) depth }
    requires forms_read { ReadsForms (F.post forms.now) source.now depth }
    ensures { ReadsBy (pair_form at pair) expr_view depth source.now tokens.now result }
{
    let (a, rest) = operand(forms, alloc, source, tokens, depth)?;
    let (b, rest) = operand(forms, alloc, source, rest, depth)?;
    let (_, rest) = token(source, rest, Test::Close)?;
    Ok((paired(alloc, at, pair, a, b)?, rest))
}

/// A form of three operands.
///
/// # Errors
///
/// Where reading stops, and why; or `Stop::OutOfMemory`.
#[tactic(auto, unfolding(cmm_grammar::specs::Grammar::triple_form, cmm_grammar::specs::Grammar::a_token))]
pub fn triple_form<'t, F: Fn(&'t [Token], u32, u32) -> Result<(Expr, &'t [Token]), Stop>>(
    forms: &F,
    alloc: Global,
    source: &[u8],
    tokens: &'t [Token],
    depth: u32,
    at: u32,
    triple: Triple,
) -> Result<(Expr, &'t [Token]), Stop>
    requires callable { MayRead (F.pre forms.now) depth }
    requires forms_read { ReadsForms (F.post forms.now) source.now depth }
    ensures { ReadsBy (triple_form at triple) expr_view depth source.now tokens.now result }
{
    let (a, rest) = operand(forms, alloc, source, tokens, depth)?;
    let (b, rest) = operand(forms, alloc, source, rest, depth)?;
    let (c, rest) = operand(forms, alloc, source, rest, depth)?;
    let (_, rest) = token(source, rest, Test::Close)?;
    Ok((tripled(alloc, at, triple, a, b, c)?, rest))
}

/// What computes with floats, after its word, which is at `word_at`.
///
/// # Errors
///
/// Where reading stops, and why; or `Stop::OutOfMemory`.
#[tactic(auto, unfolding(cmm_grammar::specs::Grammar::float_form))]
pub fn float_form<'t, F: Fn(&'t [Token], u32, u32) -> Result<(Expr, &'t [Token]), Stop>>(
    forms: &F,
    alloc: Global,
    source: &[u8],
    tokens: &'t [Token],
    depth: u32,
    at: u32,
    word_at: u32,
) -> Result<(Expr, &'t [Token]), Stop>
    requires callable { MayRead (F.pre forms.now) depth }
    requires forms_read { ReadsForms (F.post forms.now) source.now depth }
    ensures { ReadsBy (float_form at word_at) expr_view depth source.now tokens.now result }
{
    let (operands, rest) = operands(forms, alloc, source, tokens, depth)?;
    Ok((float_node(at, word_at, operands), rest))
}

/// A `seq`.
///
/// # Errors
///
/// Where reading stops, and why; or `Stop::OutOfMemory`.
#[tactic(auto, unfolding(cmm_grammar::specs::Grammar::seq_form))]
pub fn seq_form<'t, F: Fn(&'t [Token], u32, u32) -> Result<(Expr, &'t [Token]), Stop>>(
    forms: &F,
    alloc: Global,
    source: &[u8],
    tokens: &'t [Token],
    depth: u32,
    at: u32,
) -> Result<(Expr, &'t [Token]), Stop>
    requires callable { MayRead (F.pre forms.now) depth }
    requires forms_read { ReadsForms (F.post forms.now) source.now depth }
    ensures { ReadsBy (seq_form at) expr_view depth source.now tokens.now result }
{
    let (first, rest) = operand(forms, alloc, source, tokens, depth)?;
    let (more, rest) = operands(forms, alloc, source, rest, depth)?;
    Ok((sequence_at(at, first, more)?, rest))
}
