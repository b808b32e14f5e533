//! The items of a text.
ghost use Rattle.std.specs.Prelude.{◌≡◌, ◌<◌, ◌^◌, [], map, length};
ghost use Rattle.cmm_grammar.specs.Parts.{item_of};
ghost use Rattle.cmm_grammar.specs.Rule.{Inside, Listed, AParameter, AToken, maybe};
ghost use Rattle.cmm_grammar.specs.Words.{is_function, passing};
ghost use Rattle.cmm_grammar.specs.Grammar.{parameters, a_function, item_rest, an_item};
ghost use Rattle.cmm_grammar.specs.Reading.{reads, items_at};
ghost use Rattle.cmm_tree.specs.View.{param_view, item_view};
ghost use Rattle.cmm_parts.specs.Results.{trees, GivesReading};
ghost use Rattle.cmm_reader.specs.ItemParts.{item_part};

use crate::data::data_list;
use bs_words::List;
use cmm_exprs::function_body;
use cmm_lex::{Keyword, Token, TokenKind};
use cmm_nodes::Stop;
use cmm_parts::{is_open, parameters, symbol};
use cmm_tree::{Function, Item, Param};
use std::alloc::Global;

/// The parameters of a function in their parenthesis.
fn inner_parameters<'t>(
    alloc: Global,
    source: &[u8],
    tokens: &'t [Token],
    depth: u32,
) -> Result<(Vec<Param>, &'t [Token]), Stop>
    ensures { GivesReading (λ x. map param_view x.0.items) (λ x. trees source.now x.1.now) result
        (reads (Inside (Listed AParameter) (λ _. parameters)) depth (trees source.now tokens.now)) }
{
    let Some((first, rest)) = tokens.split_first() else {
        return Err(Stop::Unexpected { left: 0 });
    };
    if !is_open(first.kind) {
        return Err(Stop::Unexpected { left: tokens.len() });
    }
    if depth == 0 {
        return Err(Stop::TooDeep { left: tokens.len() });
    }
    parameters(alloc, source, rest, depth - 1)
}

/// A function after its word. Its tokens are not counted.
#[tactic(auto, unfolding(cmm_grammar::specs::Grammar::a_function, cmm_grammar::specs::Grammar::a_token))]
fn function<'t>(
    alloc: Global,
    source: &[u8],
    tokens: &'t [Token],
    depth: u32,
    at: u32,
) -> Result<(Item, &'t [Token]), Stop>
    ensures { GivesReading (λ x. item_part x.0) (λ x. trees source.now x.1.now) result
        (reads (a_function at) depth (trees source.now tokens.now)) }
{
    let (token, name, rest) = symbol(alloc, source, tokens)?;
    let (params, rest) = inner_parameters(alloc, source, rest, depth)?;
    let (body, rest) = function_body(alloc, source, rest, depth)?;
    let function = Function {
        at,
        name_at: token.at,
        name,
        params: List::from_vec(params),
        body,
        tokens: 0,
    };
    Ok((Item::Function(function), rest))
}

/// An item after its parenthesis.
#[tactic(auto, unfolding(cmm_grammar::specs::Grammar::item_rest))]
fn item_inside<'t>(
    alloc: Global,
    source: &[u8],
    tokens: &'t [Token],
    depth: u32,
    at: u32,
) -> Result<(Item, &'t [Token]), Stop>
    ensures { GivesReading (λ x. item_part x.0) (λ x. trees source.now x.1.now) result
        (reads (maybe AToken (passing is_function) (item_rest at)) depth
        (trees source.now tokens.now)) }
{
    let Some((first, rest)) = tokens.split_first() else {
        return Err(Stop::Unexpected { left: 0 });
    };
    if matches!(first.kind, TokenKind::Keyword(Keyword::Function)) {
        function(alloc, source, rest, depth, at)
    } else {
        data_list(alloc, source, tokens, depth, at)
    }
}

/// An item at the front. Its tokens are not counted.
#[tactic(auto, unfolding(cmm_grammar::specs::Grammar::an_item))]
fn item<'t>(
    alloc: Global,
    source: &[u8],
    tokens: &'t [Token],
    depth: u32,
) -> Result<(Item, &'t [Token]), Stop>
    ensures { GivesReading (λ x. item_part x.0) (λ x. trees source.now x.1.now) result
        (reads an_item depth (trees source.now tokens.now)) }
{
    let Some((first, rest)) = tokens.split_first() else {
        return Err(Stop::Unexpected { left: 0 });
    };
    if !is_open(first.kind) {
        return Err(Stop::Unexpected { left: tokens.len() });
    }
    if depth == 0 {
        return Err(Stop::TooDeep { left: tokens.len() });
    }
    item_inside(alloc, source, rest, depth - 1, first.at)
}

/// The item of so many tokens.
fn counted(item: Item, tokens: u32) -> Item
    ensures { item_view result ≡ item_of tokens (item_part item) }
{
    match item {
        Item::Function(mut function) => {
            function.tokens = tokens;
            Item::Function(function)
        }
        Item::Data(list) => Item::Data(list),
    }
}

/// The items of all these tokens.
///
/// # Errors
///
/// Where reading stops, and why; or `Stop::OutOfMemory`.
pub fn items(alloc: Global, source: &[u8], tokens: &[Token], depth: u32) -> Result<Vec<Item>, Stop>
    requires { length tokens.now < 2 ^ 32 }
    ensures { GivesReading (λ v. map item_view v.items) (λ _. []) result
        (items_at depth (trees source.now tokens.now)) }
{
    let mut items = Vec::new(alloc);
    let mut rest = tokens;
    while !rest.is_empty() {
        let (item, behind) = item(alloc, source, rest, depth)?;
        let count = (rest.len() - behind.len()) as u32;
        items.push(counted(item, count))?;
        rest = behind;
    }
    Ok(items)
}
