//! `let` and `letmut`.
ghost use Rattle.std.specs.Prelude.{map};
ghost use Rattle.cmm_grammar.specs.Words.{is_close};
ghost use Rattle.cmm_grammar.specs.Grammar.{a_binding, a_mutable_binding, bindings_to_close, let_body, let_form};
ghost use Rattle.cmm_tree.specs.View.{expr_view};
ghost use Rattle.cmm_parts.specs.Results.{trees, GivesReading, ReadsBy, many_of};
ghost use Rattle.cmm_nodes.specs.Nodes.{binding_part};
ghost use Rattle.cmm_operations.specs.Forms.{MayRead, ReadsForms};
ghost use Rattle.cmm_exprs.specs.Results.{binding_rule, enclosed_bindings, let_one};

use cmm_lex::Token;
use cmm_nodes::{Stop, let_node};
use cmm_operations::{body_to_close, expression};
use cmm_parts::{Test, component, is_open, name_of, passes, token};
use cmm_tree::{Binding, Expr};
use std::alloc::Global;

/// A name and the value that `let` binds to it.
#[tactic(auto, unfolding(cmm_grammar::specs::Grammar::a_binding, cmm_grammar::specs::Grammar::a_token))]
fn plain_binding<'t, F: Fn(&'t [Token], u32, u32) -> Result<(Expr, &'t [Token]), Stop>>(
    forms: &F,
    alloc: Global,
    source: &[u8],
    tokens: &'t [Token],
    depth: u32,
) -> Result<(Binding, &'t [Token]), Stop>
    requires callable { MayRead (F.pre forms.now) depth }
    requires forms_read { ReadsForms (F.post forms.now) source.now depth }
    ensures { ReadsBy a_binding binding_part depth source.now tokens.now result }
{
    let (name, rest) = token(source, tokens, Test::Name)?;
    let text = name_of(alloc, source, &name)?;
    let (value, rest) = expression(forms, alloc, source, rest, depth)?;
    let binding = Binding {
        at: name.at,
        name: text,
        declared: None,
        value,
    };
    Ok((binding, rest))
}

/// A name, its component and the value that `letmut` binds to it.
#[tactic(auto, unfolding(cmm_grammar::specs::Grammar::a_mutable_binding, cmm_grammar::specs::Grammar::a_token))]
fn mutable_binding<'t, F: Fn(&'t [Token], u32, u32) -> Result<(Expr, &'t [Token]), Stop>>(
    forms: &F,
    alloc: Global,
    source: &[u8],
    tokens: &'t [Token],
    depth: u32,
) -> Result<(Binding, &'t [Token]), Stop>
    requires callable { MayRead (F.pre forms.now) depth }
    requires forms_read { ReadsForms (F.post forms.now) source.now depth }
    ensures { ReadsBy a_mutable_binding binding_part depth source.now tokens.now result }
{
    let (name, rest) = token(source, tokens, Test::Name)?;
    let (declared, rest) = component(source, rest, depth)?;
    let text = name_of(alloc, source, &name)?;
    let (value, rest) = expression(forms, alloc, source, rest, depth)?;
    let binding = Binding {
        at: name.at,
        name: text,
        declared: Some(declared),
        value,
    };
    Ok((binding, rest))
}

/// A binding of `letmut`, or of `let`.
fn binding<'t, F: Fn(&'t [Token], u32, u32) -> Result<(Expr, &'t [Token]), Stop>>(
    forms: &F,
    alloc: Global,
    source: &[u8],
    tokens: &'t [Token],
    depth: u32,
    mutable: bool,
) -> Result<(Binding, &'t [Token]), Stop>
    requires callable { MayRead (F.pre forms.now) depth }
    requires forms_read { ReadsForms (F.post forms.now) source.now depth }
    ensures { ReadsBy (binding_rule mutable) binding_part depth source.now tokens.now result }
{
    if mutable {
        mutable_binding(forms, alloc, source, tokens, depth)
    } else {
        plain_binding(forms, alloc, source, tokens, depth)
    }
}

/// The bindings up to a closing parenthesis, which begins the rest.
fn binding_list<'t, F: Fn(&'t [Token], u32, u32) -> Result<(Expr, &'t [Token]), Stop>>(
    forms: &F,
    alloc: Global,
    source: &[u8],
    tokens: &'t [Token],
    depth: u32,
    mutable: bool,
) -> Result<(Vec<Binding>, &'t [Token]), Stop>
    requires callable { MayRead (F.pre forms.now) depth }
    requires forms_read { ReadsForms (F.post forms.now) source.now depth }
    ensures { GivesReading (λ x. map binding_part x.0.items) (λ x. trees source.now x.1.now) result
        (many_of is_close (binding_rule mutable) depth (trees source.now tokens.now)) }
{
    let mut bindings = Vec::new(alloc);
    let mut rest = tokens;
    while let Some((first, _)) = rest.split_first() {
        if passes(source, Test::Close, first) {
            return Ok((bindings, rest));
        }
        let (bound, behind) = binding(forms, alloc, source, rest, depth, mutable)?;
        bindings.push(bound)?;
        rest = behind;
    }
    Err(Stop::Unexpected { left: 0 })
}

/// Bindings up to the parenthesis that closes them.
#[tactic(auto, unfolding(cmm_grammar::specs::Grammar::bindings_to_close, cmm_grammar::specs::Grammar::a_token))]
fn bindings_to_close<'t, F: Fn(&'t [Token], u32, u32) -> Result<(Expr, &'t [Token]), Stop>>(
    forms: &F,
    alloc: Global,
    source: &[u8],
    tokens: &'t [Token],
    depth: u32,
    mutable: bool,
) -> Result<(Vec<Binding>, &'t [Token]), Stop>
    requires callable { MayRead (F.pre forms.now) depth }
    requires forms_read { ReadsForms (F.post forms.now) source.now depth }
    ensures { ReadsBy (bindings_to_close (binding_rule mutable)) (λ bs. map binding_part bs.items)
        depth source.now tokens.now result }
{
    let (first, rest) = binding(forms, alloc, source, tokens, depth, mutable)?;
    let first = Box::new(alloc, first)?;
    let (more, rest) = binding_list(forms, alloc, source, rest, depth, mutable)?;
    let (_, rest) = token(source, rest, Test::Close)?;
    let mut bindings = more;
    bindings.insert(0, Box::into_inner(first))?;
    Ok((bindings, rest))
}

/// The bindings in a parenthesis of their own, after that.
fn enclosed_bindings<'t, F: Fn(&'t [Token], u32, u32) -> Result<(Expr, &'t [Token]), Stop>>(
    forms: &F,
    alloc: Global,
    source: &[u8],
    tokens: &'t [Token],
    depth: u32,
    mutable: bool,
) -> Result<(Vec<Binding>, &'t [Token]), Stop>
    requires callable { MayRead (F.pre forms.now) depth }
    requires forms_read { ReadsForms (F.post forms.now) source.now depth }
    ensures { GivesReading (λ x. map binding_part x.0.items) (λ x. trees source.now x.1.now) result
        (enclosed_bindings (binding_rule mutable) depth (trees source.now tokens.now)) }
{
    if depth == 0 {
        return Err(Stop::TooDeep {
            left: tokens.len() + 1,
        });
    }
    bindings_to_close(forms, alloc, source, tokens, depth - 1, mutable)
}

/// What is evaluated in the scope of bindings.
#[tactic(auto, unfolding(cmm_grammar::specs::Grammar::let_body))]
fn let_body<'t, F: Fn(&'t [Token], u32, u32) -> Result<(Expr, &'t [Token]), Stop>>(
    forms: &F,
    alloc: Global,
    source: &[u8],
    tokens: &'t [Token],
    depth: u32,
    at: u32,
    bindings: Vec<Binding>,
) -> Result<(Expr, &'t [Token]), Stop>
    requires callable { MayRead (F.pre forms.now) depth }
    requires forms_read { ReadsForms (F.post forms.now) source.now depth }
    ensures { ReadsBy (let_body at (map binding_part bindings.items)) expr_view depth
        source.now tokens.now result }
{
    let (body, rest) = body_to_close(forms, alloc, source, tokens, depth)?;
    Ok((let_node(at, bindings, body), rest))
}

/// A `let` or a `letmut` of one binding.
fn let_one<'t, F: Fn(&'t [Token], u32, u32) -> Result<(Expr, &'t [Token]), Stop>>(
    forms: &F,
    alloc: Global,
    source: &[u8],
    tokens: &'t [Token],
    depth: u32,
    at: u32,
    mutable: bool,
) -> Result<(Expr, &'t [Token]), Stop>
    requires callable { MayRead (F.pre forms.now) depth }
    requires forms_read { ReadsForms (F.post forms.now) source.now depth }
    ensures { ReadsBy (let_one at (binding_rule mutable)) expr_view depth
        source.now tokens.now result }
{
    let (bound, rest) = binding(forms, alloc, source, tokens, depth, mutable)?;
    let mut bindings = Vec::new(alloc);
    bindings.push(bound)?;
    let_body(forms, alloc, source, rest, depth, at, bindings)
}

/// A `let` or a `letmut`.
///
/// # Errors
///
/// Where reading stops, and why; or `Stop::OutOfMemory`.
#[tactic(auto, unfolding(cmm_grammar::specs::Grammar::let_form))]
pub fn let_form<'t, F: Fn(&'t [Token], u32, u32) -> Result<(Expr, &'t [Token]), Stop>>(
    forms: &F,
    alloc: Global,
    source: &[u8],
    tokens: &'t [Token],
    depth: u32,
    at: u32,
    mutable: bool,
) -> Result<(Expr, &'t [Token]), Stop>
    requires callable { MayRead (F.pre forms.now) depth }
    requires forms_read { ReadsForms (F.post forms.now) source.now depth }
    ensures { ReadsBy (let_form at (binding_rule mutable)) expr_view depth
        source.now tokens.now result }
{
    let Some((first, rest)) = tokens.split_first() else {
        return Err(Stop::Unexpected { left: 0 });
    };
    if is_open(first.kind) {
        let (bindings, rest) = enclosed_bindings(forms, alloc, source, rest, depth, mutable)?;
        return let_body(forms, alloc, source, rest, depth, at, bindings);
    }
    let_one(forms, alloc, source, tokens, depth, at, mutable)
}
