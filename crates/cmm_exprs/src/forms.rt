//! All forms, by their words.
ghost use Rattle.std.specs.Prelude.{◌<◌};
ghost use Rattle.cmm_grammar.specs.Grammar.{sequence_to_close, form_of, open_form};
ghost use Rattle.cmm_grammar.specs.Reading.{reads};
ghost use Rattle.cmm_tree.specs.View.{expr_view};
ghost use Rattle.cmm_parts.specs.Results.{trees, GivesReading, ReadsBy};
ghost use Rattle.cmm_operations.specs.Forms.{MayRead, ReadsForms};

use crate::bindings::let_form;
use crate::cases::{switch_form, while_form};
use crate::handlers::{catch_form, exit_form, try_form};
use cmm_grammar::Head;
use cmm_lex::Token;
use cmm_nodes::Stop;
use cmm_operations::{
    alloc_form, app_form, assign_form, extcall_form, float_form, load_form, pair_form, raise_form,
    seq_form, sequence_to_close, store_form, triple_form,
};
use cmm_parts::head;
use cmm_tree::Expr;
use std::alloc::Global;

/// The word of a form.
#[derive(Clone, Copy)]
struct FormWord {
    /// Its place in bytes.
    at: u32,
    /// What it begins.
    head: Head,
}

/// A form after its word.
#[tactic(auto, unfolding(cmm_grammar::specs::Grammar::form_of))]
fn form_of<'t, F: Fn(&'t [Token], u32, u32) -> Result<(Expr, &'t [Token]), Stop>>(
    forms: &F,
    alloc: Global,
    source: &[u8],
    tokens: &'t [Token],
    depth: u32,
    at: u32,
    word: FormWord,
) -> Result<(Expr, &'t [Token]), Stop>
    requires callable { MayRead (F.pre forms.now) depth }
    requires forms_read { ReadsForms (F.post forms.now) source.now depth }
    ensures { ReadsBy (form_of at word.at word.head) expr_view depth source.now tokens.now result }
{
    match word.head {
        Head::Let => let_form(forms, alloc, source, tokens, depth, at, false),
        Head::Letmut => let_form(forms, alloc, source, tokens, depth, at, true),
        Head::Assign => assign_form(forms, alloc, source, tokens, depth, at),
        Head::App => app_form(forms, alloc, source, tokens, depth, at),
        Head::Extcall => extcall_form(forms, alloc, source, tokens, depth, at),
        Head::Alloc => alloc_form(forms, alloc, source, tokens, depth, at),
        Head::Load => load_form(forms, alloc, source, tokens, depth, at),
        Head::Store => store_form(forms, alloc, source, tokens, depth, at),
        Head::Pair(pair) => pair_form(forms, alloc, source, tokens, depth, at, pair),
        Head::Triple(triple) => triple_form(forms, alloc, source, tokens, depth, at, triple),
        Head::While => while_form(forms, alloc, source, tokens, depth, at),
        Head::Raise => raise_form(forms, alloc, source, tokens, depth, at),
        Head::Seq => seq_form(forms, alloc, source, tokens, depth, at),
        Head::Switch => switch_form(forms, alloc, source, tokens, depth, at),
        Head::Catch => catch_form(forms, alloc, source, tokens, depth, at),
        Head::Exit => exit_form(forms, alloc, source, tokens, depth, at),
        Head::Try => try_form(forms, alloc, source, tokens, depth, at),
        Head::Float => float_form(forms, alloc, source, tokens, depth, at, word.at),
    }
}

/// A form after its parenthesis.
#[tactic(auto, unfolding(cmm_grammar::specs::Grammar::open_form))]
fn form<'t, F: Fn(&'t [Token], u32, u32) -> Result<(Expr, &'t [Token]), Stop>>(
    forms: &F,
    alloc: Global,
    source: &[u8],
    tokens: &'t [Token],
    depth: u32,
    at: u32,
) -> Result<(Expr, &'t [Token]), Stop>
    requires callable { MayRead (F.pre forms.now) depth }
    requires forms_read { ReadsForms (F.post forms.now) source.now depth }
    ensures { ReadsBy (open_form at) expr_view depth source.now tokens.now result }
{
    let (word, head, rest) = head(source, tokens)?;
    form_of(
        forms,
        alloc,
        source,
        rest,
        depth,
        at,
        FormWord { at: word.at, head },
    )
}

/// A form after its parenthesis, and all forms inside it.
#[cycle(form)]
fn form_at<'t>(
    alloc: Global,
    source: &[u8],
    tokens: &'t [Token],
    depth: u32,
    at: u32,
) -> Result<(Expr, &'t [Token]), Stop>
    ensures { ReadsBy (open_form at) expr_view depth source.now tokens.now result }
{
    let forms = |rest, below: u32, place: u32|
        requires { below < depth }
        ensures { ReadsBy (open_form place) expr_view below source.entry.now rest.now result }
    {
        let _ = &depth;
        form_at(alloc, source, rest, below, place)
    };
    form(&forms, alloc, source, tokens, depth, at)
}

/// The body of a function, up to the parenthesis that closes it.
///
/// # Errors
///
/// Where reading stops, and why; or `Stop::OutOfMemory`.
pub fn function_body<'t>(
    alloc: Global,
    source: &[u8],
    tokens: &'t [Token],
    depth: u32,
) -> Result<(Expr, &'t [Token]), Stop>
    ensures { GivesReading (λ x. expr_view x.0) (λ x. trees source.now x.1.now) result
        (reads sequence_to_close depth (trees source.now tokens.now)) }
{
    let forms = |rest, below: u32, place: u32|
        ensures { ReadsBy (open_form place) expr_view below source.entry.now rest.now result }
    { form_at(alloc, source, rest, below, place) };
    sequence_to_close(&forms, alloc, source, tokens, depth)
}
