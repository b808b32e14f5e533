//! `while` and `switch`.
ghost use Rattle.std.specs.Prelude.{map};
ghost use Rattle.cmm_grammar.specs.Grammar.{while_form, case_body, a_case, switch_form};
ghost use Rattle.cmm_grammar.specs.Reading.{reads};
ghost use Rattle.cmm_tree.specs.View.{expr_view, index_view};
ghost use Rattle.cmm_parts.specs.Results.{trees, GivesReading, ReadsBy};
ghost use Rattle.cmm_operations.specs.Forms.{MayRead, ReadsForms};
ghost use Rattle.cmm_exprs.specs.Results.{case_part, case_goes_on, marked_parts, some_by};

use cmm_lex::Token;
use cmm_nodes::{Stop, sequence, switch_node, while_loop};
use cmm_operations::{body_to_close, list, operand};
use cmm_parts::{Test, case_number, is_case, more_numbers, token, word};
use cmm_tree::{Case, CaseIndex, Expr};
use std::alloc::Global;

/// A `while`.
///
/// # Errors
///
/// Where reading stops, and why; or `Stop::OutOfMemory`.
#[tactic(auto, unfolding(cmm_grammar::specs::Grammar::while_form))]
pub fn while_form<'t, F: Fn(&'t [Token], u32, u32) -> Result<(Expr, &'t [Token]), Stop>>(
    forms: &F,
    alloc: Global,
    source: &[u8],
    tokens: &'t [Token],
    depth: u32,
    at: u32,
) -> Result<(Expr, &'t [Token]), Stop>
    requires callable { MayRead (F.pre forms.now) depth }
    requires forms_read { ReadsForms (F.post forms.now) source.now depth }
    ensures { ReadsBy (while_form at) expr_view depth source.now tokens.now result }
{
    let (condition, rest) = operand(forms, alloc, source, tokens, depth)?;
    let (body, rest) = body_to_close(forms, alloc, source, rest, depth)?;
    Ok((while_loop(alloc, at, condition, body)?, rest))
}

/// The body of a case, and whether another case follows.
#[tactic(auto, unfolding(cmm_grammar::specs::Grammar::case_body, cmm_grammar::specs::Grammar::a_token))]
fn case_body<'t, F: Fn(&'t [Token], u32, u32) -> Result<(Expr, &'t [Token]), Stop>>(
    forms: &F,
    alloc: Global,
    source: &[u8],
    tokens: &'t [Token],
    depth: u32,
    indexes: Vec<CaseIndex>,
) -> Result<(Case, bool, &'t [Token]), Stop>
    requires callable { MayRead (F.pre forms.now) depth }
    requires forms_read { ReadsForms (F.post forms.now) source.now depth }
    ensures { GivesReading (λ x. case_part x.1 x.0) (λ x. trees source.now x.2.now) result
        (reads (case_body (map index_view indexes.items)) depth (trees source.now tokens.now)) }
{
    let (first, rest) = operand(forms, alloc, source, tokens, depth)?;
    let (more, rest) = list(forms, alloc, source, rest, depth, Test::EndsCase)?;
    let (end, rest) = token(source, rest, Test::EndsCase)?;
    let body = sequence(first, more)?;
    Ok((Case { indexes, body }, is_case(end.kind), rest))
}

/// A case after its `case`, and whether another one follows.
#[tactic(auto, unfolding(cmm_grammar::specs::Grammar::a_case))]
fn a_case<'t, F: Fn(&'t [Token], u32, u32) -> Result<(Expr, &'t [Token]), Stop>>(
    forms: &F,
    alloc: Global,
    source: &[u8],
    tokens: &'t [Token],
    depth: u32,
) -> Result<(Case, bool, &'t [Token]), Stop>
    requires callable { MayRead (F.pre forms.now) depth }
    requires forms_read { ReadsForms (F.post forms.now) source.now depth }
    ensures { GivesReading (λ x. case_part x.1 x.0) (λ x. trees source.now x.2.now) result
        (reads a_case depth (trees source.now tokens.now)) }
{
    let (first, rest) = case_number(source, tokens, depth)?;
    let (more, rest) = more_numbers(alloc, source, rest, depth)?;
    let mut indexes = more;
    indexes.insert(0, first)?;
    case_body(forms, alloc, source, rest, depth, indexes)
}

/// The cases of a switch, and its closing parenthesis.
fn case_list<'t, F: Fn(&'t [Token], u32, u32) -> Result<(Expr, &'t [Token]), Stop>>(
    forms: &F,
    alloc: Global,
    source: &[u8],
    tokens: &'t [Token],
    depth: u32,
) -> Result<(Vec<Case>, &'t [Token]), Stop>
    requires callable { MayRead (F.pre forms.now) depth }
    requires forms_read { ReadsForms (F.post forms.now) source.now depth }
    ensures { GivesReading (λ x. marked_parts case_part x.0.items) (λ x. trees source.now x.1.now) result
        (some_by case_goes_on a_case depth (trees source.now tokens.now)) }
{
    let mut cases = Vec::new(alloc);
    let mut rest = tokens;
    loop {
        let (case, goes_on, behind) = a_case(forms, alloc, source, rest, depth)?;
        cases.push(case)?;
        rest = behind;
        if !goes_on {
            return Ok((cases, rest));
        }
    }
}

/// A `switch`.
///
/// # Errors
///
/// Where reading stops, and why; or `Stop::OutOfMemory`.
#[tactic(auto, unfolding(cmm_grammar::specs::Grammar::switch_form, cmm_grammar::specs::Grammar::a_token))]
pub fn switch_form<'t, F: Fn(&'t [Token], u32, u32) -> Result<(Expr, &'t [Token]), Stop>>(
    forms: &F,
    alloc: Global,
    source: &[u8],
    tokens: &'t [Token],
    depth: u32,
    at: u32,
) -> Result<(Expr, &'t [Token]), Stop>
    requires callable { MayRead (F.pre forms.now) depth }
    requires forms_read { ReadsForms (F.post forms.now) source.now depth }
    ensures { ReadsBy (switch_form at) expr_view depth source.now tokens.now result }
{
    let (size, rest) = token(source, tokens, Test::Integer)?;
    let (selector, rest) = operand(forms, alloc, source, rest, depth)?;
    let (_, rest) = token(source, rest, Test::Case)?;
    let (cases, rest) = case_list(forms, alloc, source, rest, depth)?;
    let size_word = word(source, &size);
    let switch = switch_node(at, size.at, size_word, selector, cases);
    Ok((switch, rest))
}
