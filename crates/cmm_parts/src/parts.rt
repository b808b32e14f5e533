//! The parts of forms that hold no expression.
ghost use Rattle.std.specs.Prelude.{◌≡◌, ◌&&◌, IfOk, map};
ghost use Rattle.cmm_lex.specs.Token.{token_view};
ghost use Rattle.cmm_lex.specs.Strings.{string_bytes};
ghost use Rattle.cmm_grammar.specs.Rule.{Inside, ALabel};
ghost use Rattle.cmm_grammar.specs.Words.{is_open_kind, is_name_kind, is_symbol_token, is_no_case, is_close, passing, width_of};
ghost use Rattle.cmm_grammar.specs.Grammar.{case_number, another_number, a_parameter, parameters, label_rest, a_label};
ghost use Rattle.cmm_grammar.specs.Reading.{one_by};
ghost use Rattle.cmm_tree.specs.View.{index_view, param_view};
ghost use Rattle.cmm_parts.specs.Results.{trees, GivesReading, ReadsTokens, ReadsBy, many_of};
ghost use Rattle.cmm_parts.specs.Parts.{label_part, opened_label, chunk_part, chunk_at};

use crate::front::{Test, component, name_of, passes, symbol_of, token, word};
use crate::words;
use bs_words::{Chunk, Name};
use cmm_grammar::{ChunkWord, Width};
use cmm_lex::{Token, TokenKind};
use cmm_nodes::{PlacedChunk, Stop, UnexpectedToken};
use cmm_tree::{CaseIndex, Param};
use std::alloc::Global;

/// The symbol at the front: its token, and its bytes.
///
/// # Errors
///
/// `Stop::Unexpected` where another token is there, or none.
pub fn symbol<'t>(
    alloc: Global,
    source: &[u8],
    tokens: &'t [Token],
) -> Result<(Token, Name, &'t [Token]), Stop>
    ensures read { GivesReading (λ x. token_view source.now x.0) (λ x. trees source.now x.2.now) result
        (one_by (passing is_symbol_token) (trees source.now tokens.now)) }
    ensures name { IfOk result (λ x. x.1 ≡ string_bytes (token_view source.now x.0).text) }
{
    let Some((first, rest)) = tokens.split_first() else {
        return Err(Stop::Unexpected { left: 0 });
    };
    match symbol_of(alloc, source, first)? {
        Some(name) => Ok((*first, name, rest)),
        None => Err(Stop::Unexpected { left: tokens.len() }),
    }
}

/// The width at the front.
fn width<'t>(source: &[u8], tokens: &'t [Token]) -> Result<(Width, &'t [Token]), UnexpectedToken>
    ensures { ReadsTokens (λ x. x.0) (λ x. trees source.now x.1.now) result
        (one_by (λ t. width_of t.kind) (trees source.now tokens.now)) }
{
    let Some((first, rest)) = tokens.split_first() else {
        return Err(UnexpectedToken { left: 0 });
    };
    match words::width_of(first.kind) {
        Some(width) => Ok((width, rest)),
        None => Err(UnexpectedToken { left: tokens.len() }),
    }
}

/// That chunk at that place.
fn placed(chunk: Option<Chunk>, at: u32) -> PlacedChunk
    ensures { chunk_part result ≡ (chunk, at) }
{
    PlacedChunk { chunk, at }
}

/// The chunk at the front; `val` where no word of a chunk is there.
///
/// # Errors
///
/// `UnexpectedToken` where the text ends, or where no width follows `signed` or `unsigned`.
pub fn chunk<'t>(
    source: &[u8],
    tokens: &'t [Token],
) -> Result<(PlacedChunk, &'t [Token]), UnexpectedToken>
    ensures { ReadsTokens (λ x. chunk_part x.0) (λ x. trees source.now x.1.now) result
        (chunk_at (trees source.now tokens.now)) }
{
    let Some((first, rest)) = tokens.split_first() else {
        return Err(UnexpectedToken { left: 0 });
    };
    match words::chunk_word_of(first.kind) {
        Some(ChunkWord::Whole(chunk)) => Ok((placed(Some(chunk), first.at), rest)),
        Some(ChunkWord::Unsigned) => {
            let (width, rest) = width(source, rest)?;
            Ok((placed(Some(words::unsigned_chunk(width)), first.at), rest))
        }
        Some(ChunkWord::Signed) => {
            let (width, rest) = width(source, rest)?;
            Ok((placed(Some(words::signed_chunk(width)), first.at), rest))
        }
        Some(ChunkWord::Float) => Ok((placed(None, first.at), rest)),
        None => Ok((placed(Some(Chunk::Val), 0), tokens)),
    }
}

/// The number of a case, after its `case`.
///
/// # Errors
///
/// `Stop::Unexpected` where another token is there, or none.
#[tactic(auto, unfolding(cmm_grammar::specs::Grammar::case_number, cmm_grammar::specs::Grammar::a_token))]
pub fn case_number<'t>(
    source: &[u8],
    tokens: &'t [Token],
    depth: u32,
) -> Result<(CaseIndex, &'t [Token]), Stop>
    ensures { ReadsBy case_number index_view depth source.now tokens.now result }
{
    let (number, rest) = token(source, tokens, Test::Integer)?;
    let (_, rest) = token(source, rest, Test::Colon)?;
    let index = CaseIndex {
        at: number.at,
        index: word(source, &number),
    };
    Ok((index, rest))
}

/// A number more of a case, with its `case`.
#[tactic(auto, unfolding(cmm_grammar::specs::Grammar::another_number, cmm_grammar::specs::Grammar::a_token))]
fn another_number<'t>(
    source: &[u8],
    tokens: &'t [Token],
    depth: u32,
) -> Result<(CaseIndex, &'t [Token]), Stop>
    ensures { ReadsBy another_number index_view depth source.now tokens.now result }
{
    let (_, rest) = token(source, tokens, Test::Case)?;
    case_number(source, rest, depth)
}

/// The other numbers of a case.
///
/// # Errors
///
/// `Stop::Unexpected` where no number follows a `case`, or where the text ends.
pub fn more_numbers<'t>(
    alloc: Global,
    source: &[u8],
    tokens: &'t [Token],
    depth: u32,
) -> Result<(Vec<CaseIndex>, &'t [Token]), Stop>
    ensures { GivesReading (λ x. map index_view x.0.items) (λ x. trees source.now x.1.now) result
        (many_of is_no_case another_number depth (trees source.now tokens.now)) }
{
    let mut indexes = Vec::new(alloc);
    let mut rest = tokens;
    while let Some((first, _)) = rest.split_first() {
        if passes(source, Test::NoCase, first) {
            return Ok((indexes, rest));
        }
        let (index, behind) = another_number(source, rest, depth)?;
        indexes.push(index)?;
        rest = behind;
    }
    Err(Stop::Unexpected { left: 0 })
}

/// A parameter.
#[tactic(auto, unfolding(cmm_grammar::specs::Grammar::a_parameter, cmm_grammar::specs::Grammar::a_token))]
fn parameter<'t>(
    alloc: Global,
    source: &[u8],
    tokens: &'t [Token],
    depth: u32,
) -> Result<(Param, &'t [Token]), Stop>
    ensures { ReadsBy a_parameter param_view depth source.now tokens.now result }
{
    let (name, rest) = token(source, tokens, Test::Name)?;
    let (_, rest) = token(source, rest, Test::Colon)?;
    let (declared, rest) = component(source, rest, depth)?;
    let param = Param {
        at: name.at,
        name: name_of(alloc, source, &name)?,
        comp: declared.comp,
        comp_at: declared.at,
    };
    Ok((param, rest))
}

/// Parameters up to a closing parenthesis, which begins the rest.
fn parameter_list<'t>(
    alloc: Global,
    source: &[u8],
    tokens: &'t [Token],
    depth: u32,
) -> Result<(Vec<Param>, &'t [Token]), Stop>
    ensures { GivesReading (λ x. map param_view x.0.items) (λ x. trees source.now x.1.now) result
        (many_of is_close a_parameter depth (trees source.now tokens.now)) }
{
    let mut params = Vec::new(alloc);
    let mut rest = tokens;
    while let Some((first, _)) = rest.split_first() {
        if passes(source, Test::Close, first) {
            return Ok((params, rest));
        }
        let (param, behind) = parameter(alloc, source, rest, depth)?;
        params.push(param)?;
        rest = behind;
    }
    Err(Stop::Unexpected { left: 0 })
}

/// Parameters up to the parenthesis that closes them.
///
/// # Errors
///
/// `Stop::Unexpected` where a token is none of a parameter, or where the text ends.
#[tactic(auto, unfolding(cmm_grammar::specs::Grammar::parameters, cmm_grammar::specs::Grammar::a_token))]
pub fn parameters<'t>(
    alloc: Global,
    source: &[u8],
    tokens: &'t [Token],
    depth: u32,
) -> Result<(Vec<Param>, &'t [Token]), Stop>
    ensures { ReadsBy parameters (λ xs. map param_view xs.items) depth
        source.now tokens.now result }
{
    let (params, rest) = parameter_list(alloc, source, tokens, depth)?;
    let (_, rest) = token(source, rest, Test::Close)?;
    Ok((params, rest))
}

/// The label of a handler, and its parameters.
#[derive(Drop)]
pub struct LabelHead {
    /// The place of the label in bytes.
    pub at: u32,
    /// The label itself.
    pub name: Name,
    /// The parameters of its handler.
    pub params: Vec<Param>,
}

/// The parameters of a handler, after its label.
#[tactic(auto, unfolding(cmm_grammar::specs::Grammar::label_rest))]
fn label_rest<'t>(
    alloc: Global,
    source: &[u8],
    tokens: &'t [Token],
    depth: u32,
    name: &Token,
) -> Result<(LabelHead, &'t [Token]), Stop>
    ensures { ReadsBy (label_rest (token_view source.now name.now)) label_part depth source.now
        tokens.now result }
{
    let (params, rest) = parameters(alloc, source, tokens, depth)?;
    let head = LabelHead {
        at: name.at,
        name: name_of(alloc, source, name)?,
        params,
    };
    Ok((head, rest))
}

/// Whether two tokens begin a handler that has a label.
pub fn begins_label(opening: &Token, name: &Token) -> bool
    ensures { result ≡ is_open_kind opening.now.kind && is_name_kind name.now.kind }
{
    words::is_open(opening.kind) && matches!(name.kind, TokenKind::Name)
}

/// The label and the parameters of a handler, after their parenthesis and this name.
///
/// # Errors
///
/// `Stop::TooDeep` where the parenthesis is one level too deep, else `Stop::Unexpected`.
pub fn opened_label<'t>(
    alloc: Global,
    source: &[u8],
    tokens: &'t [Token],
    depth: u32,
    name: &Token,
) -> Result<(LabelHead, &'t [Token]), Stop>
    ensures { GivesReading (λ x. label_part x.0) (λ x. trees source.now x.1.now) result
        (opened_label depth (token_view source.now name.now) (trees source.now tokens.now)) }
{
    if depth == 0 {
        return Err(Stop::TooDeep {
            left: tokens.len() + 2,
        });
    }
    label_rest(alloc, source, tokens, depth - 1, name)
}

/// The label and the parameters of a handler.
#[tactic(auto, unfolding(cmm_grammar::specs::Grammar::a_label, cmm_grammar::specs::Grammar::a_token))]
fn label<'t>(
    alloc: Global,
    source: &[u8],
    tokens: &'t [Token],
    depth: u32,
) -> Result<(LabelHead, &'t [Token]), Stop>
    ensures { ReadsBy a_label label_part depth source.now tokens.now result }
{
    let (name, rest) = token(source, tokens, Test::Name)?;
    label_rest(alloc, source, rest, depth, &name)
}

/// The label and the parameters of a handler in their parenthesis.
///
/// # Errors
///
/// `Stop::TooDeep` where the parenthesis is one level too deep, else `Stop::Unexpected`.
pub fn inner_label<'t>(
    alloc: Global,
    source: &[u8],
    tokens: &'t [Token],
    depth: u32,
) -> Result<(LabelHead, &'t [Token]), Stop>
    ensures { ReadsBy (Inside ALabel (λ _. a_label)) label_part depth source.now tokens.now result }
{
    let Some((first, rest)) = tokens.split_first() else {
        return Err(Stop::Unexpected { left: 0 });
    };
    if !words::is_open(first.kind) {
        return Err(Stop::Unexpected { left: tokens.len() });
    }
    if depth == 0 {
        return Err(Stop::TooDeep { left: tokens.len() });
    }
    label(alloc, source, rest, depth - 1)
}
