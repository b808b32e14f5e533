//! `catch`, `exit` and `try`.
ghost use Rattle.cmm_grammar.specs.Rule as rule;
ghost use Rattle.cmm_grammar.specs.Grammar.{handler_rest, next_handler, more_handlers, labelled_handlers};
ghost use Rattle.cmm_grammar.specs.Grammar.{bare_handler, catch_form, exit_form, try_form};
ghost use Rattle.cmm_grammar.specs.Reading.{reads};
ghost use Rattle.cmm_tree.specs.View.{expr_view};
ghost use Rattle.cmm_parts.specs.Results.{trees, GivesReading, ReadsBy};
ghost use Rattle.cmm_parts.specs.Parts.{label_part};
ghost use Rattle.cmm_operations.specs.Forms.{MayRead, ReadsForms};
ghost use Rattle.cmm_exprs.specs.Results.{handler_part, handler_goes_on, marked_parts, some_by, bare_handler_rule, handlers_rule};

use cmm_lex::Token;
use cmm_nodes::{Stop, bare_catch, catch_node, exit_node, sequence, try_node};
use cmm_operations::{body_to_close, body_to_with, list, operand, operands};
use cmm_parts::{
    LabelHead, Test, begins_label, inner_label, is_and, name_of, opened_label, passes, token,
};
use cmm_tree::{Expr, Handler, Label};
use std::alloc::Global;

/// A catch before its handlers.
#[derive(Drop)]
struct CatchHead {
    /// Its place in bytes.
    at: u32,
    body: Box<Expr>,
}

/// A handler after its label and parameters, and whether another one follows.
#[tactic(auto, unfolding(cmm_grammar::specs::Grammar::handler_rest, cmm_grammar::specs::Grammar::a_token))]
fn handler_rest<'t, F: Fn(&'t [Token], u32, u32) -> Result<(Expr, &'t [Token]), Stop>>(
    forms: &F,
    alloc: Global,
    source: &[u8],
    tokens: &'t [Token],
    depth: u32,
    label: LabelHead,
) -> Result<(Handler, bool, &'t [Token]), Stop>
    requires callable { MayRead (F.pre forms.now) depth }
    requires forms_read { ReadsForms (F.post forms.now) source.now depth }
    ensures { GivesReading (λ x. handler_part x.1 x.0) (λ x. trees source.now x.2.now) result
        (reads (handler_rest (label_part label)) depth (trees source.now tokens.now)) }
{
    let (first, rest) = operand(forms, alloc, source, tokens, depth)?;
    let (more, rest) = list(forms, alloc, source, rest, depth, Test::EndsHandler)?;
    let (end, rest) = token(source, rest, Test::EndsHandler)?;
    let body = sequence(first, more)?;
    let LabelHead { at, name, params } = label;
    let handler = Handler {
        at,
        label: Label::Named(name),
        params,
        body,
    };
    Ok((handler, is_and(end.kind), rest))
}

/// A handler after `and`, and whether another one follows.
#[tactic(auto, unfolding(cmm_grammar::specs::Grammar::next_handler))]
fn next_handler<'t, F: Fn(&'t [Token], u32, u32) -> Result<(Expr, &'t [Token]), Stop>>(
    forms: &F,
    alloc: Global,
    source: &[u8],
    tokens: &'t [Token],
    depth: u32,
) -> Result<(Handler, bool, &'t [Token]), Stop>
    requires callable { MayRead (F.pre forms.now) depth }
    requires forms_read { ReadsForms (F.post forms.now) source.now depth }
    ensures { GivesReading (λ x. handler_part x.1 x.0) (λ x. trees source.now x.2.now) result
        (reads next_handler depth (trees source.now tokens.now)) }
{
    let (label, rest) = inner_label(alloc, source, tokens, depth)?;
    handler_rest(forms, alloc, source, rest, depth, label)
}

/// The handlers that `and` joins, up to the parenthesis that closes their catch.
fn handler_list<'t, F: Fn(&'t [Token], u32, u32) -> Result<(Expr, &'t [Token]), Stop>>(
    forms: &F,
    alloc: Global,
    source: &[u8],
    tokens: &'t [Token],
    depth: u32,
) -> Result<(Vec<Handler>, &'t [Token]), Stop>
    requires callable { MayRead (F.pre forms.now) depth }
    requires forms_read { ReadsForms (F.post forms.now) source.now depth }
    ensures { GivesReading (λ x. marked_parts handler_part x.0.items) (λ x. trees source.now x.1.now)
        result (some_by handler_goes_on next_handler depth (trees source.now tokens.now)) }
{
    let mut handlers = Vec::new(alloc);
    let mut rest = tokens;
    loop {
        let (handler, goes_on, behind) = next_handler(forms, alloc, source, rest, depth)?;
        handlers.push(handler)?;
        rest = behind;
        if !goes_on {
            return Ok((handlers, rest));
        }
    }
}

/// The handlers after one that another follows, or none.
#[tactic(auto, unfolding(cmm_grammar::specs::Grammar::more_handlers))]
fn more_handlers<'t, F: Fn(&'t [Token], u32, u32) -> Result<(Expr, &'t [Token]), Stop>>(
    forms: &F,
    alloc: Global,
    source: &[u8],
    tokens: &'t [Token],
    depth: u32,
    goes_on: bool,
) -> Result<(Vec<Handler>, &'t [Token]), Stop>
    requires callable { MayRead (F.pre forms.now) depth }
    requires forms_read { ReadsForms (F.post forms.now) source.now depth }
    ensures { GivesReading (λ x. marked_parts handler_part x.0.items) (λ x. trees source.now x.1.now)
        result (reads (more_handlers goes_on) depth (trees source.now tokens.now)) }
{
    if goes_on {
        handler_list(forms, alloc, source, tokens, depth)
    } else {
        Ok((Vec::new(alloc), tokens))
    }
}

/// A catch after its first label.
#[tactic(auto, unfolding(cmm_grammar::specs::Grammar::labelled_handlers))]
fn labelled_handlers<'t, F: Fn(&'t [Token], u32, u32) -> Result<(Expr, &'t [Token]), Stop>>(
    forms: &F,
    alloc: Global,
    source: &[u8],
    tokens: &'t [Token],
    depth: u32,
    catch: CatchHead,
    label: LabelHead,
) -> Result<(Expr, &'t [Token]), Stop>
    requires callable { MayRead (F.pre forms.now) depth }
    requires forms_read { ReadsForms (F.post forms.now) source.now depth }
    ensures { ReadsBy (labelled_handlers catch.at (expr_view catch.body.value) (label_part label))
        expr_view depth source.now tokens.now result }
{
    let (first, goes_on, rest) = handler_rest(forms, alloc, source, tokens, depth, label)?;
    let first = Box::new(alloc, first)?;
    let (more, rest) = more_handlers(forms, alloc, source, rest, depth, goes_on)?;
    let mut handlers = more;
    handlers.insert(0, Box::into_inner(first))?;
    Ok((catch_node(catch.at, catch.body, handlers), rest))
}

/// A catch whose handler has no label, after its `with`.
#[tactic(auto, unfolding(cmm_grammar::specs::Grammar::bare_handler))]
fn bare_handler<'t, F: Fn(&'t [Token], u32, u32) -> Result<(Expr, &'t [Token]), Stop>>(
    forms: &F,
    alloc: Global,
    source: &[u8],
    tokens: &'t [Token],
    depth: u32,
    catch: CatchHead,
) -> Result<(Expr, &'t [Token]), Stop>
    requires callable { MayRead (F.pre forms.now) depth }
    requires forms_read { ReadsForms (F.post forms.now) source.now depth }
    ensures { ReadsBy (bare_handler_rule catch.at (expr_view catch.body.value)) expr_view depth
        source.now tokens.now result }
{
    let (first, rest) = operand(forms, alloc, source, tokens, depth)?;
    let (more, rest) = operands(forms, alloc, source, rest, depth)?;
    let handler = sequence(first, more)?;
    Ok((bare_catch(alloc, catch.at, catch.body, handler)?, rest))
}

/// The handlers of a `catch`, after its `with`.
fn catch_handlers<'t, F: Fn(&'t [Token], u32, u32) -> Result<(Expr, &'t [Token]), Stop>>(
    forms: &F,
    alloc: Global,
    source: &[u8],
    tokens: &'t [Token],
    depth: u32,
    catch: CatchHead,
) -> Result<(Expr, &'t [Token]), Stop>
    requires callable { MayRead (F.pre forms.now) depth }
    requires forms_read { ReadsForms (F.post forms.now) source.now depth }
    ensures { ReadsBy (handlers_rule catch.at (expr_view catch.body.value)) expr_view depth
        source.now tokens.now result }
{
    match tokens {
        [opening, name, behind @ ..] if begins_label(opening, name) => {
            let (label, rest) = opened_label(alloc, source, behind, depth, name)?;
            labelled_handlers(forms, alloc, source, rest, depth, catch, label)
        }
        _ => bare_handler(forms, alloc, source, tokens, depth, catch),
    }
}

/// A `catch`.
///
/// # Errors
///
/// Where reading stops, and why; or `Stop::OutOfMemory`.
#[tactic(auto, unfolding(cmm_grammar::specs::Grammar::catch_form))]
pub fn catch_form<'t, F: Fn(&'t [Token], u32, u32) -> Result<(Expr, &'t [Token]), Stop>>(
    forms: &F,
    alloc: Global,
    source: &[u8],
    tokens: &'t [Token],
    depth: u32,
    at: u32,
) -> Result<(Expr, &'t [Token]), Stop>
    requires callable { MayRead (F.pre forms.now) depth }
    requires forms_read { ReadsForms (F.post forms.now) source.now depth }
    ensures { ReadsBy (catch_form at) expr_view depth source.now tokens.now result }
{
    let (body, rest) = body_to_with(forms, alloc, source, tokens, depth)?;
    catch_handlers(forms, alloc, source, rest, depth, CatchHead { at, body })
}

/// An `exit` in parentheses.
///
/// # Errors
///
/// Where reading stops, and why; or `Stop::OutOfMemory`.
#[tactic(auto, unfolding(cmm_grammar::specs::Grammar::exit_form, cmm_grammar::specs::Grammar::exit_rest, cmm_grammar::specs::Grammar::a_token))]
pub fn exit_form<'t, F: Fn(&'t [Token], u32, u32) -> Result<(Expr, &'t [Token]), Stop>>(
    forms: &F,
    alloc: Global,
    source: &[u8],
    tokens: &'t [Token],
    depth: u32,
    at: u32,
) -> Result<(Expr, &'t [Token]), Stop>
    requires callable { MayRead (F.pre forms.now) depth }
    requires forms_read { ReadsForms (F.post forms.now) source.now depth }
    ensures { ReadsBy (exit_form at) expr_view depth source.now tokens.now result }
{
    match tokens.split_first() {
        Some((name, rest)) if passes(source, Test::Name, name) => {
            let (arguments, rest) = operands(forms, alloc, source, rest, depth)?;
            let label = Label::Named(name_of(alloc, source, name)?);
            Ok((exit_node(at, name.at, label, arguments), rest))
        }
        _ => {
            let (_, rest) = token(source, tokens, Test::Close)?;
            Ok((exit_node(at, at, Label::Bare, Vec::new(alloc)), rest))
        }
    }
}

/// A `try`.
///
/// # Errors
///
/// Where reading stops, and why; or `Stop::OutOfMemory`.
#[tactic(auto, unfolding(cmm_grammar::specs::Grammar::try_form, cmm_grammar::specs::Grammar::a_token))]
pub fn try_form<'t, F: Fn(&'t [Token], u32, u32) -> Result<(Expr, &'t [Token]), Stop>>(
    forms: &F,
    alloc: Global,
    source: &[u8],
    tokens: &'t [Token],
    depth: u32,
    at: u32,
) -> Result<(Expr, &'t [Token]), Stop>
    requires callable { MayRead (F.pre forms.now) depth }
    requires forms_read { ReadsForms (F.post forms.now) source.now depth }
    ensures { ReadsBy (try_form at) expr_view depth source.now tokens.now result }
{
    let (body, rest) = body_to_with(forms, alloc, source, tokens, depth)?;
    let (name, rest) = token(source, rest, Test::Name)?;
    let text = name_of(alloc, source, &name)?;
    let (handler, rest) = body_to_close(forms, alloc, source, rest, depth)?;
    Ok((try_node(at, body, name.at, text, handler), rest))
}
