//! Expressions from their parts.
//!
//! Operands come boxed, as the tree holds them.
ghost use Rattle.std.specs.Prelude.{◌≡◌, IfOk, IfErr, map, ◌∷◌, []};
ghost use Rattle.cmm_tree.specs.View.{expr_view, label_view};
ghost use Rattle.cmm_grammar.specs.Parts.{expressions, sequence_at, sequence};
ghost use Rattle.cmm_grammar.specs.Grammar.{paired, tripled};
ghost use Rattle.cmm_grammar.specs.Rewriting.{element, exit_to, turn, catch_one, while_loop};
ghost use Rattle.cmm_nodes.specs.Nodes.{integer_in};
ghost use Rattle.cmm_tree.specs.Tree.{Operator, Integer, Seq, Float, NoMore, Again};
ghost use Rattle.bs_words.specs.declared.operators.IntOp.TheVariants.{AddA, Shl};
ghost use Rattle.cmm_nodes.specs.declared.stop.Stop.TheVariants.{OutOfMemory};

use crate::build::{catch_node, exit_node, float_node};
use crate::stop::Stop;
use bs_words::{IntOp, Ty};
use cmm_grammar::{Pair, Triple};
use cmm_tree::{Expr, Form, Handler, Label};
use std::alloc::Global;

/// The expression of that form at that place, whose type is not checked yet.
pub fn node(at: u32, form: Form) -> Expr
    ensures at { result.at ≡ at }
    ensures form { result.form ≡ form }
{
    Expr {
        at,
        ty: Ty::Never,
        form,
    }
}

/// The sequence of these expressions.
#[tactic(auto, using(crate::proofs::Rows::seq_is))]
fn seq_node(at: u32, elements: Vec<Expr>) -> Expr
    ensures { expr_view result ≡ Seq at (expressions (map expr_view elements.items)) }
{
    node(at, Form::Seq(elements))
}

/// One expression, or a sequence of it and more, at that place.
///
/// # Errors
///
/// `Stop::OutOfMemory` alone.
pub fn sequence_at(at: u32, first: Box<Expr>, more: Vec<Expr>) -> Result<Expr, Stop>
    ensures expr { IfOk result (λ e. expr_view e
        ≡ sequence_at at (expr_view first.value) (map expr_view more.items)) }
    ensures error { IfErr result (λ e. e ≡ OutOfMemory) }
{
    let first = Box::into_inner(first);
    if more.is_empty() {
        return Ok(first);
    }
    let mut elements = more;
    elements.insert(0, first)?;
    Ok(seq_node(at, elements))
}

/// One expression, or a sequence of it and more, which begins with it.
///
/// # Errors
///
/// `Stop::OutOfMemory` alone.
pub fn sequence(first: Box<Expr>, more: Vec<Expr>) -> Result<Expr, Stop>
    ensures expr { IfOk result (λ e. expr_view e
        ≡ sequence (expr_view first.value) (map expr_view more.items)) }
    ensures error { IfErr result (λ e. e ≡ OutOfMemory) }
{
    let at = first.at;
    sequence_at(at, first, more)
}

/// The word of an expression that is an integer.
fn integer_in(expr: &Expr) -> Option<u64>
    ensures { result ≡ integer_in (expr_view expr.now) }
{
    match &expr.form {
        Form::Integer(word) => Some(*word),
        Form::Pointer(_)
        | Form::Symbol(_)
        | Form::Name(_)
        | Form::Nothing
        | Form::Float { .. }
        | Form::Let(_, _)
        | Form::Assign { .. }
        | Form::Operator(_, _, _)
        | Form::Load(_, _)
        | Form::Store(_, _, _)
        | Form::Alloc { .. }
        | Form::App { .. }
        | Form::Extcall { .. }
        | Form::Checkbound(_, _)
        | Form::Raise(_)
        | Form::Seq(_)
        | Form::If(_, _, _)
        | Form::Switch { .. }
        | Form::Catch(_, _)
        | Form::Exit { .. }
        | Form::Try { .. } => None,
    }
}

/// The sum of an address and an offset.
fn address_sum(at: u32, array: Box<Expr>, offset: Box<Expr>) -> Expr
    ensures { expr_view result ≡ Operator at AddA (expr_view array.value) (expr_view offset.value) }
{
    node(at, Form::Operator(IntOp::AddA, array, offset))
}

/// The offset of an array's element whose index is computed.
fn shifted(alloc: Global, at: u32, index: Box<Expr>) -> Result<Expr, Stop>
    ensures expr { IfOk result (λ e. expr_view e
        ≡ Operator at Shl (expr_view index.value) (Integer at 3)) }
    ensures error { IfErr result (λ e. e ≡ OutOfMemory) }
{
    let three = Box::new(alloc, node(at, Form::Integer(3)))?;
    Ok(node(at, Form::Operator(IntOp::Shl, index, three)))
}

/// The address of an array's element whose index is not the integer 0.
fn element_after(alloc: Global, at: u32, array: Box<Expr>, offset: Expr) -> Result<Box<Expr>, Stop>
    ensures expr { IfOk result (λ e. expr_view e.value
        ≡ Operator at AddA (expr_view array.value) (expr_view offset)) }
    ensures error { IfErr result (λ e. e ≡ OutOfMemory) }
{
    let offset = Box::new(alloc, offset)?;
    Ok(Box::new(alloc, address_sum(at, array, offset))?)
}

/// The address of an array's element: the array where the index is the integer 0, else a sum.
fn element(alloc: Global, at: u32, array: Box<Expr>, index: Box<Expr>) -> Result<Box<Expr>, Stop>
    ensures expr { IfOk result (λ e. expr_view e.value
        ≡ element at (expr_view array.value) (expr_view index.value)) }
    ensures error { IfErr result (λ e. e ≡ OutOfMemory) }
{
    match integer_in(&index) {
        Some(0) => Ok(array),
        Some(i) => {
            let offset = node(at, Form::Integer(i.wrapping_mul(8)));
            element_after(alloc, at, array, offset)
        }
        None => {
            let offset = shifted(alloc, at, index)?;
            element_after(alloc, at, array, offset)
        }
    }
}

/// The expression of a form of two operands.
///
/// # Errors
///
/// `Stop::OutOfMemory` alone.
pub fn paired(alloc: Global, at: u32, pair: Pair, a: Box<Expr>, b: Box<Expr>) -> Result<Expr, Stop>
    ensures expr { IfOk result (λ e. expr_view e
        ≡ paired at pair (expr_view a.value) (expr_view b.value)) }
    ensures error { IfErr result (λ e. e ≡ OutOfMemory) }
{
    match pair {
        Pair::Operator(op) => Ok(node(at, Form::Operator(op, a, b))),
        Pair::Checkbound => Ok(node(at, Form::Checkbound(a, b))),
        Pair::Element(chunk) => {
            let address = element(alloc, at, a, b)?;
            Ok(node(at, Form::Load(chunk, address)))
        }
    }
}

/// The expression of a form of three operands.
///
/// # Errors
///
/// `Stop::OutOfMemory` alone.
pub fn tripled(
    alloc: Global,
    at: u32,
    triple: Triple,
    a: Box<Expr>,
    b: Box<Expr>,
    c: Box<Expr>,
) -> Result<Expr, Stop>
    ensures expr { IfOk result (λ e. expr_view e
        ≡ tripled at triple (expr_view a.value) (expr_view b.value) (expr_view c.value)) }
    ensures error { IfErr result (λ e. e ≡ OutOfMemory) }
{
    match triple {
        Triple::If => Ok(node(at, Form::If(a, b, c))),
        Triple::SetElement(chunk) => {
            let address = element(alloc, at, a, b)?;
            Ok(node(at, Form::Store(chunk, address, c)))
        }
    }
}

/// The exit to a label, without arguments.
#[tactic(auto, using(crate::proofs::Rows::exit_alone))]
pub fn exit_to(alloc: Global, at: u32, label: Label) -> Expr
    ensures { expr_view result ≡ exit_to at (label_view label) }
{
    exit_node(at, at, label, Vec::new(alloc))
}

/// A literal that is a float.
#[tactic(auto, using(crate::proofs::Rows::float_alone))]
pub fn float_leaf(alloc: Global, at: u32) -> Expr
    ensures { expr_view result ≡ Float at at NoMore }
{
    float_node(at, at, Vec::new(alloc))
}

/// A turn of a `while`: the body under the condition, and out where it does not hold.
fn turn(alloc: Global, at: u32, condition: Box<Expr>, body: Box<Expr>) -> Result<Box<Expr>, Stop>
    ensures expr { IfOk result (λ e. expr_view e.value
        ≡ turn at (expr_view condition.value) (expr_view body.value)) }
    ensures error { IfErr result (λ e. e ≡ OutOfMemory) }
{
    if integer_in(&condition).unwrap_or(0) != 0 {
        return Ok(body);
    }
    let out = Box::new(alloc, exit_to(alloc, at, Label::Done))?;
    Ok(Box::new(alloc, node(at, Form::If(condition, body, out)))?)
}

/// A catch with one handler, which has no parameters.
fn catch_one(
    alloc: Global,
    at: u32,
    label: Label,
    body: Box<Expr>,
    handler: Box<Expr>,
) -> Result<Box<Expr>, Stop>
    ensures expr { IfOk result (λ e. expr_view e.value
        ≡ catch_one at (label_view label) (expr_view body.value) (expr_view handler.value)) }
    ensures error { IfErr result (λ e. e ≡ OutOfMemory) }
{
    let mut handlers = Vec::new(alloc);
    handlers.push(Handler {
        at,
        label,
        params: Vec::new(alloc),
        body: Box::into_inner(handler),
    })?;
    Ok(Box::new(alloc, catch_node(at, body, handlers))?)
}

/// A turn of a `while`, and the exit to the next one.
fn turn_and_again(alloc: Global, at: u32, turn: Box<Expr>) -> Result<Box<Expr>, Stop>
    ensures expr { IfOk result (λ e. expr_view e.value
        ≡ Seq at (expressions (expr_view turn.value ∷ exit_to at Again ∷ []))) }
    ensures error { IfErr result (λ e. e ≡ OutOfMemory) }
{
    let mut elements = Vec::new(alloc);
    elements.push(Box::into_inner(turn))?;
    elements.push(exit_to(alloc, at, Label::Again))?;
    Ok(Box::new(alloc, seq_node(at, elements))?)
}

/// The expression of a `while`.
///
/// # Errors
///
/// `Stop::OutOfMemory` alone.
pub fn while_loop(
    alloc: Global,
    at: u32,
    condition: Box<Expr>,
    body: Box<Expr>,
) -> Result<Expr, Stop>
    ensures expr { IfOk result (λ e. expr_view e
        ≡ while_loop at (expr_view condition.value) (expr_view body.value)) }
    ensures error { IfErr result (λ e. e ≡ OutOfMemory) }
{
    let turn = turn(alloc, at, condition, body)?;
    let handler = turn_and_again(alloc, at, turn)?;
    let again = Box::new(alloc, exit_to(alloc, at, Label::Again))?;
    let turns = catch_one(alloc, at, Label::Again, again, handler)?;
    let nothing = Box::new(alloc, node(at, Form::Nothing))?;
    Ok(Box::into_inner(catch_one(alloc, at, Label::Done, turns, nothing)?))
}
