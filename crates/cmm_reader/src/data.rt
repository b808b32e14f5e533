//! Static data.
ghost use Rattle.std.specs.Prelude.{◌≡◌, IfOk, IfErr, map, option_map, cond, Some, None};
ghost use Rattle.bs_words.specs.Contents.{contents};
ghost use Rattle.cmm_lex.specs.Strings.{string_bytes};
ghost use Rattle.cmm_lex.specs.Token.{token_view};
ghost use Rattle.cmm_grammar.specs.Words.{data_word_of, val_of, is_close, is_integer};
ghost use Rattle.cmm_lex.specs.Integers.{integer_value};
ghost use Rattle.cmm_tree.specs.Tree.{Val};
ghost use Rattle.cmm_grammar.specs.Grammar.{a_data_integer, datum_of, a_data_item, data_items, data_list};
ghost use Rattle.cmm_grammar.specs.Reading.{reads};
ghost use Rattle.cmm_tree.specs.View.{datum_view, data_item_view};
ghost use Rattle.cmm_parts.specs.Results.{trees, GivesReading, many_of};
ghost use Rattle.cmm_reader.specs.ItemParts.{number_datum, item_part, marked_with};
ghost use Rattle.cmm_nodes.specs.declared.stop.Stop.TheVariants.{OutOfMemory};

use bs_words::{List, Name};
use cmm_grammar::DataWord;
use cmm_lex::{Keyword, Token, TokenKind, integer_word, string_of};
use cmm_nodes::Stop;
use cmm_parts::{Test, data_keyword, passes, symbol, symbol_of, token};
use cmm_tree::{DataItem, DataList, Datum, Item};
use std::alloc::Global;

/// What a token begins: a definition, where it is a symbol, or what its keyword begins.
fn data_word(alloc: Global, source: &[u8], token: &Token) -> Result<Option<DataWord>, Stop>
    ensures word { IfOk result (λ o. marked_with (token_view source.now token.now) o ≡ data_word_of
        (token_view source.now token.now)) }
    ensures error { IfErr result (λ e. e ≡ OutOfMemory) }
{
    match symbol_of(alloc, source, token)? {
        Some(_) => Ok(Some(DataWord::Define)),
        None => Ok(data_keyword(token.kind)),
    }
}

/// A symbol or an integer as a value, if the token is one.
fn value_of(alloc: Global, source: &[u8], token: &Token) -> Result<Option<Datum>, Stop>
    ensures datum { IfOk result (λ o. option_map datum_view o ≡ val_of
        (token_view source.now token.now)) }
    ensures error { IfErr result (λ e. e ≡ OutOfMemory) }
{
    match symbol_of(alloc, source, token)? {
        Some(name) => Ok(Some(Datum::Address {
            root: true,
            name_at: token.at,
            name,
        })),
        None => Ok(number_of(source, token)),
    }
}

/// An integer as a value, if the token is one.
fn number_of(source: &[u8], token: &Token) -> Option<Datum>
    ensures { option_map datum_view result ≡ cond (is_integer (token_view source.now token.now))
        (Some (Val (integer_value (token_view source.now token.now).text))) None }
{
    if matches!(token.kind, TokenKind::Integer) {
        Some(Datum::Val(integer_word(source, token)))
    } else {
        None
    }
}

/// An item of one integer.
#[tactic(auto, unfolding(cmm_grammar::specs::Grammar::a_data_integer, cmm_grammar::specs::Grammar::a_token))]
fn number_item<'t>(
    source: &[u8],
    tokens: &'t [Token],
    depth: u32,
    word: DataWord,
) -> Result<(Datum, &'t [Token]), Stop>
    ensures { GivesReading (λ x. datum_view x.0) (λ x. trees source.now x.1.now) result
        (reads (a_data_integer (number_datum word)) depth (trees source.now tokens.now)) }
{
    let (number, rest) = token(source, tokens, Test::Integer)?;
    let value = integer_word(source, &number);
    let datum = match word {
        DataWord::Byte => Datum::Byte(value),
        DataWord::Half => Datum::Half(value),
        DataWord::Int => Datum::Int(value),
        DataWord::Skip => Datum::Skip(value),
        DataWord::Align
        | DataWord::Define
        | DataWord::Val
        | DataWord::Addr
        | DataWord::Text
        | DataWord::Global
        | DataWord::Float => Datum::Align(value),
    };
    Ok((datum, rest))
}

/// The bytes of a string.
fn bytes_of(alloc: Global, source: &[u8], token: &Token) -> Result<List<u8>, Stop>
    ensures bytes { IfOk result (λ b. contents b ≡ string_bytes
        (token_view source.now token.now).text) }
    ensures error { IfErr result (λ e. e ≡ OutOfMemory) }
{
    Ok(string_of(alloc, source, token)?)
}

/// A symbol that is defined.
#[tactic(auto, unfolding(cmm_grammar::specs::Grammar::datum_of, cmm_grammar::specs::Grammar::a_token))]
fn definition<'t>(
    alloc: Global,
    source: &[u8],
    tokens: &'t [Token],
    depth: u32,
    first: &Token,
) -> Result<(Datum, &'t [Token]), Stop>
    ensures { GivesReading (λ x. datum_view x.0) (λ x. trees source.now x.1.now) result
        (reads (datum_of (token_view source.now first.now) DataWord.Define) depth
        (trees source.now tokens.now)) }
{
    let (_, rest) = token(source, tokens, Test::Colon)?;
    let name = Name::from_vec(bytes_of(alloc, source, first)?.into_vec());
    Ok((Datum::Define(name), rest))
}

/// A symbol or an integer as a value.
#[tactic(auto, unfolding(cmm_grammar::specs::Grammar::datum_of))]
fn value_item<'t>(
    alloc: Global,
    source: &[u8],
    tokens: &'t [Token],
    depth: u32,
    word: &Token,
) -> Result<(Datum, &'t [Token]), Stop>
    ensures { GivesReading (λ x. datum_view x.0) (λ x. trees source.now x.1.now) result
        (reads (datum_of (token_view source.now word.now) DataWord.Val) depth
        (trees source.now tokens.now)) }
{
    let Some((first, rest)) = tokens.split_first() else {
        return Err(Stop::Unexpected { left: 0 });
    };
    match value_of(alloc, source, first)? {
        Some(datum) => Ok((datum, rest)),
        None => Err(Stop::Unexpected { left: tokens.len() }),
    }
}

/// The address of a symbol.
#[tactic(auto, unfolding(cmm_grammar::specs::Grammar::datum_of, cmm_grammar::specs::Grammar::a_token))]
fn address_item<'t>(
    alloc: Global,
    source: &[u8],
    tokens: &'t [Token],
    depth: u32,
    word: &Token,
) -> Result<(Datum, &'t [Token]), Stop>
    ensures { GivesReading (λ x. datum_view x.0) (λ x. trees source.now x.1.now) result
        (reads (datum_of (token_view source.now word.now) DataWord.Addr) depth
        (trees source.now tokens.now)) }
{
    let (token, name, rest) = symbol(alloc, source, tokens)?;
    let datum = Datum::Address {
        root: false,
        name_at: token.at,
        name,
    };
    Ok((datum, rest))
}

/// A symbol that must be defined.
#[tactic(auto, unfolding(cmm_grammar::specs::Grammar::datum_of, cmm_grammar::specs::Grammar::a_token))]
fn global_item<'t>(
    alloc: Global,
    source: &[u8],
    tokens: &'t [Token],
    depth: u32,
    word: &Token,
) -> Result<(Datum, &'t [Token]), Stop>
    ensures { GivesReading (λ x. datum_view x.0) (λ x. trees source.now x.1.now) result
        (reads (datum_of (token_view source.now word.now) DataWord.Global) depth
        (trees source.now tokens.now)) }
{
    let (token, name, rest) = symbol(alloc, source, tokens)?;
    let datum = Datum::Global {
        name_at: token.at,
        name,
    };
    Ok((datum, rest))
}

/// The bytes of a string.
#[tactic(auto, unfolding(cmm_grammar::specs::Grammar::datum_of, cmm_grammar::specs::Grammar::a_token))]
fn text_item<'t>(
    alloc: Global,
    source: &[u8],
    tokens: &'t [Token],
    depth: u32,
    word: &Token,
) -> Result<(Datum, &'t [Token]), Stop>
    ensures { GivesReading (λ x. datum_view x.0) (λ x. trees source.now x.1.now) result
        (reads (datum_of (token_view source.now word.now) DataWord.Text) depth
        (trees source.now tokens.now)) }
{
    let (text, rest) = token(source, tokens, Test::String)?;
    Ok((Datum::Text(bytes_of(alloc, source, &text)?), rest))
}

/// A float.
#[tactic(auto, unfolding(cmm_grammar::specs::Grammar::datum_of, cmm_grammar::specs::Grammar::a_token))]
fn float_item<'t>(
    source: &[u8],
    tokens: &'t [Token],
    depth: u32,
    word: &Token,
) -> Result<(Datum, &'t [Token]), Stop>
    ensures { GivesReading (λ x. datum_view x.0) (λ x. trees source.now x.1.now) result
        (reads (datum_of (token_view source.now word.now) DataWord.Float) depth
        (trees source.now tokens.now)) }
{
    let (_, rest) = token(source, tokens, Test::Float)?;
    Ok((Datum::Float, rest))
}

/// An item of static data after its word.
#[tactic(auto, unfolding(cmm_grammar::specs::Grammar::datum_of))]
fn datum<'t>(
    alloc: Global,
    source: &[u8],
    tokens: &'t [Token],
    depth: u32,
    first: &Token,
    word: DataWord,
) -> Result<(Datum, &'t [Token]), Stop>
    ensures { GivesReading (λ x. datum_view x.0) (λ x. trees source.now x.1.now) result
        (reads (datum_of (token_view source.now first.now) word) depth
        (trees source.now tokens.now)) }
{
    match word {
        DataWord::Define => definition(alloc, source, tokens, depth, first),
        DataWord::Byte => number_item(source, tokens, depth, DataWord::Byte),
        DataWord::Half => number_item(source, tokens, depth, DataWord::Half),
        DataWord::Int => number_item(source, tokens, depth, DataWord::Int),
        DataWord::Val => value_item(alloc, source, tokens, depth, first),
        DataWord::Addr => address_item(alloc, source, tokens, depth, first),
        DataWord::Skip => number_item(source, tokens, depth, DataWord::Skip),
        DataWord::Align => number_item(source, tokens, depth, DataWord::Align),
        DataWord::Text => text_item(alloc, source, tokens, depth, first),
        DataWord::Global => global_item(alloc, source, tokens, depth, first),
        DataWord::Float => float_item(source, tokens, depth, first),
    }
}

/// An item of static data.
#[tactic(auto, unfolding(cmm_grammar::specs::Grammar::a_data_item))]
fn data_item<'t>(
    alloc: Global,
    source: &[u8],
    tokens: &'t [Token],
    depth: u32,
) -> Result<(DataItem, &'t [Token]), Stop>
    ensures { GivesReading (λ x. data_item_view x.0) (λ x. trees source.now x.1.now) result
        (reads a_data_item depth (trees source.now tokens.now)) }
{
    let Some((first, rest)) = tokens.split_first() else {
        return Err(Stop::Unexpected { left: 0 });
    };
    match data_word(alloc, source, first)? {
        Some(word) => {
            let (datum, rest) = datum(alloc, source, rest, depth, first, word)?;
            Ok((
                DataItem {
                    at: first.at,
                    datum,
                },
                rest,
            ))
        }
        None => Err(Stop::Unexpected { left: tokens.len() }),
    }
}

/// Items of static data up to a closing parenthesis, which begins the rest.
fn data_item_list<'t>(
    alloc: Global,
    source: &[u8],
    tokens: &'t [Token],
    depth: u32,
) -> Result<(Vec<DataItem>, &'t [Token]), Stop>
    ensures { GivesReading (λ x. map data_item_view x.0.items) (λ x. trees source.now x.1.now) result
        (many_of is_close a_data_item depth (trees source.now tokens.now)) }
{
    let mut items = Vec::new(alloc);
    let mut rest = tokens;
    while let Some((first, _)) = rest.split_first() {
        if passes(source, Test::Close, first) {
            return Ok((items, rest));
        }
        let (item, behind) = data_item(alloc, source, rest, depth)?;
        items.push(item)?;
        rest = behind;
    }
    Err(Stop::Unexpected { left: 0 })
}

/// The items of a list of static data, up to the parenthesis that closes it.
#[tactic(auto, unfolding(cmm_grammar::specs::Grammar::data_items, cmm_grammar::specs::Grammar::a_token))]
fn data_items<'t>(
    alloc: Global,
    source: &[u8],
    tokens: &'t [Token],
    depth: u32,
    at: u32,
) -> Result<(Item, &'t [Token]), Stop>
    ensures { GivesReading (λ x. item_part x.0) (λ x. trees source.now x.1.now) result
        (reads (data_items at) depth (trees source.now tokens.now)) }
{
    let (items, rest) = data_item_list(alloc, source, tokens, depth)?;
    let (_, rest) = token(source, rest, Test::Close)?;
    let list = DataList {
        at,
        items: List::from_vec(items),
    };
    Ok((Item::Data(list), rest))
}

/// A list of static data after its parenthesis.
///
/// # Errors
///
/// Where reading stops, and why; or `Stop::OutOfMemory`.
#[tactic(auto, unfolding(cmm_grammar::specs::Grammar::data_list))]
pub fn data_list<'t>(
    alloc: Global,
    source: &[u8],
    tokens: &'t [Token],
    depth: u32,
    at: u32,
) -> Result<(Item, &'t [Token]), Stop>
    ensures { GivesReading (λ x. item_part x.0) (λ x. trees source.now x.1.now) result
        (reads (data_list at) depth (trees source.now tokens.now)) }
{
    let Some((first, rest)) = tokens.split_first() else {
        return Err(Stop::Unexpected { left: 0 });
    };
    if matches!(first.kind, TokenKind::Keyword(Keyword::Data)) {
        data_items(alloc, source, rest, depth, at)
    } else {
        data_items(alloc, source, tokens, depth, at)
    }
}
