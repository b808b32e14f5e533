//! Expressions of forms, from what was read of them.
//!
//! Operands come boxed, as the tree holds them: so most functions here allocate nothing, and
//! cannot fail.
ghost use Rattle.std.specs.Prelude.{◌≡◌, IfOk, IfErr, map};
ghost use Rattle.cmm_tree.specs.Tree.{Let, Assign, Alloc, App, Extcall, Raise, Float, Switch, Catch, Exit, Try};
ghost use Rattle.cmm_tree.specs.View.{expr_view, label_view};
ghost use Rattle.cmm_grammar.specs.Parts.{expressions, bindings};
ghost use Rattle.cmm_grammar.specs.Grammar.{load_expression, store_expression, bare_catch};
ghost use Rattle.cmm_nodes.specs.Nodes.{binding_part};
ghost use Rattle.cmm_tree.specs.Rows.{cases_of, handlers_of};
ghost use Rattle.cmm_nodes.specs.declared.stop.Stop.TheVariants.{OutOfMemory};

use crate::node::node;
use crate::stop::Stop;
use bs_words::{Chunk, Name, Ret};
use cmm_tree::{Binding, Case, Expr, Form, Handler, Label};
use std::alloc::Global;

/// A `let` or a `letmut`: its bindings, and what is evaluated in their scope.
#[tactic(auto, using(crate::proofs::Rows::let_is))]
pub fn let_node(at: u32, bound: Vec<Binding>, body: Box<Expr>) -> Expr
    ensures { expr_view result
        ≡ Let at (bindings (map binding_part bound.items)) (expr_view body.value) }
{
    node(at, Form::Let(bound, body))
}

/// A new value for the mutable name at `name_at`.
pub fn assign_node(at: u32, name_at: u32, name: Name, value: Box<Expr>) -> Expr
    ensures { expr_view result ≡ Assign at name_at name (expr_view value.value) }
{
    let form = Form::Assign {
        name_at,
        name,
        value,
    };
    node(at, form)
}

/// A call of the function that an expression gives, whose result is declared at `result_at`.
#[tactic(auto, using(crate::proofs::Rows::app_is))]
pub fn app_node(at: u32, callee: Box<Expr>, arguments: Vec<Expr>, result_at: u32, ret: Ret) -> Expr
    ensures { expr_view result
        ≡ App at (expr_view callee.value) (expressions (map expr_view arguments.items)) ret
        result_at }
{
    let form = Form::App {
        callee,
        arguments,
        result: ret,
        result_at,
    };
    node(at, form)
}

/// A call of what lies outside the file, whose result is declared at `result_at`.
#[tactic(auto, using(crate::proofs::Rows::extcall_is))]
pub fn extcall_node(
    at: u32,
    frame: bool,
    name: Name,
    arguments: Vec<Expr>,
    result_at: u32,
    ret: Ret,
) -> Expr
    ensures { expr_view result
        ≡ Extcall at frame name (expressions (map expr_view arguments.items)) ret result_at }
{
    let form = Form::Extcall {
        frame,
        name,
        arguments,
        result: ret,
        result_at,
    };
    node(at, form)
}

/// A new block with the header at `header_at`.
#[tactic(auto, using(crate::proofs::Rows::alloc_is))]
pub fn alloc_node(at: u32, header_at: u32, header: u64, operands: Vec<Expr>) -> Expr
    ensures { expr_view result
        ≡ Alloc at header_at header (expressions (map expr_view operands.items)) }
{
    let form = Form::Alloc {
        header_at,
        header,
        operands,
    };
    node(at, form)
}

/// What computes with floats, by its word at `word_at`.
#[tactic(auto, using(crate::proofs::Rows::float_is))]
pub fn float_node(at: u32, word_at: u32, operands: Vec<Expr>) -> Expr
    ensures { expr_view result ≡ Float at word_at (expressions (map expr_view operands.items)) }
{
    node(at, Form::Float { word_at, operands })
}

/// The chunk of a load or a store.
#[derive(Clone, Copy)]
pub struct PlacedChunk {
    /// `None` is a chunk of floats.
    pub chunk: Option<Chunk>,
    /// The place of its first word in bytes; 0 where no word is there, which is `val`.
    pub at: u32,
}

/// A load, by its chunk; with a chunk of floats it computes with floats.
///
/// # Errors
///
/// `Stop::OutOfMemory` alone.
pub fn loaded(alloc: Global, at: u32, placed: PlacedChunk, address: Box<Expr>) -> Result<Expr, Stop>
    ensures expr { IfOk result (λ e. expr_view e
        ≡ load_expression at placed.chunk placed.at (expr_view address.value)) }
    ensures error { IfErr result (λ e. e ≡ OutOfMemory) }
{
    match placed.chunk {
        Some(chunk) => Ok(node(at, Form::Load(chunk, address))),
        None => {
            let mut operands = Vec::new(alloc);
            operands.push(Box::into_inner(address))?;
            Ok(float_node(at, placed.at, operands))
        }
    }
}

/// A store, by its chunk; with a chunk of floats it computes with floats.
///
/// # Errors
///
/// `Stop::OutOfMemory` alone.
pub fn stored(
    alloc: Global,
    at: u32,
    placed: PlacedChunk,
    address: Box<Expr>,
    value: Box<Expr>,
) -> Result<Expr, Stop>
    ensures expr { IfOk result (λ e. expr_view e
        ≡ store_expression at placed.chunk placed.at (expr_view address.value) (expr_view value.value)) }
    ensures error { IfErr result (λ e. e ≡ OutOfMemory) }
{
    match placed.chunk {
        Some(chunk) => Ok(node(at, Form::Store(chunk, address, value))),
        None => {
            let mut operands = Vec::new(alloc);
            operands.push(Box::into_inner(address))?;
            operands.push(Box::into_inner(value))?;
            Ok(float_node(at, placed.at, operands))
        }
    }
}

/// A raise of a value.
pub fn raise_node(at: u32, value: Box<Expr>) -> Expr
    ensures { expr_view result ≡ Raise at (expr_view value.value) }
{
    node(at, Form::Raise(value))
}

/// A choice by a number below the size, which is at `size_at`.
#[tactic(auto, using(crate::proofs::Rows::switch_is))]
pub fn switch_node(at: u32, size_at: u32, size: u64, selector: Box<Expr>, cases: Vec<Case>) -> Expr
    ensures { expr_view result
        ≡ Switch at size_at size (expr_view selector.value) (cases_of cases.items) }
{
    let form = Form::Switch {
        size_at,
        size,
        selector,
        cases,
    };
    node(at, form)
}

/// A body, and the handlers to which an exit may leave.
#[tactic(auto, using(crate::proofs::Rows::catch_is))]
pub fn catch_node(at: u32, body: Box<Expr>, handlers: Vec<Handler>) -> Expr
    ensures { expr_view result ≡ Catch at (expr_view body.value) (handlers_of handlers.items) }
{
    node(at, Form::Catch(body, handlers))
}

/// A catch with a handler that has no label.
///
/// # Errors
///
/// `Stop::OutOfMemory` alone.
pub fn bare_catch(alloc: Global, at: u32, body: Box<Expr>, handler: Expr) -> Result<Expr, Stop>
    ensures expr { IfOk result (λ e. expr_view e
        ≡ bare_catch at (expr_view body.value) (expr_view handler)) }
    ensures error { IfErr result (λ e. e ≡ OutOfMemory) }
{
    let mut handlers = Vec::new(alloc);
    handlers.push(Handler {
        at: handler.at,
        label: Label::Bare,
        params: Vec::new(alloc),
        body: handler,
    })?;
    Ok(catch_node(at, body, handlers))
}

/// An exit to the label at `label_at`.
#[tactic(auto, using(crate::proofs::Rows::exit_is))]
pub fn exit_node(at: u32, label_at: u32, label: Label, arguments: Vec<Expr>) -> Expr
    ensures { expr_view result
        ≡ Exit at label_at (label_view label) (expressions (map expr_view arguments.items)) }
{
    let form = Form::Exit {
        label_at,
        label,
        arguments,
    };
    node(at, form)
}

/// A body, and what handles a raise out of it under the name at `name_at`.
pub fn try_node(at: u32, body: Box<Expr>, name_at: u32, name: Name, handler: Box<Expr>) -> Expr
    ensures { expr_view result
        ≡ Try at (expr_view body.value) name_at name (expr_view handler.value) }
{
    let form = Form::Try {
        body,
        name_at,
        name,
        handler,
    };
    node(at, form)
}
