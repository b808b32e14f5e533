//! What is still to be done with what an evaluation gives.
ghost use Rattle.std.specs.Prelude.{MatchOption};
ghost use Rattle.eval_frames.specs.Passing.{Passes};

use crate::here::Here;
use crate::tests::Tests;
use crate::world::Stop;
use bs_words::{Ty, Value};
use cmm_tree::{Binding, Expr, Form, Label};

/// What a node does with what one of its parts gives.
#[derive(Drop)]
pub struct Frame<'a> {
    /// The node.
    pub form: &'a Form,
    /// Whether it is in tail position.
    pub tail: bool,
    /// Which of its parts is being evaluated.
    pub step: Step<'a>,
}

/// A row of operands, those that do not wait evaluated, and of the others those at its end.
#[derive(Drop)]
pub struct Row<'a> {
    /// The operands that are left.
    pub operands: &'a [Expr],
    /// What these have come to before, first to last: those that wait have no value.
    pub waited: Vec<Option<Value>>,
    /// The values of the operands after these, last to first.
    pub values: Vec<Value>,
}

/// The part of a node that is being evaluated.
#[derive(Drop)]
pub enum Step<'a> {
    /// All of it: what it gives is tested against its type.
    Typed(Ty),
    /// The last part: the scope before it comes back.
    Scope {
        /// How many names are in the scope that comes back.
        level: usize,
        /// How many tries are entered and not left once it is back.
        tries: u64,
    },
    /// The only operand.
    Operand,
    /// The first of two operands.
    First {
        /// Whether it is the left one, and not the right one.
        left_first: bool,
    },
    /// The second of two operands.
    Second {
        /// The value of the operand that was evaluated first.
        first: Value,
        /// Whether that was the left one, and not the right one.
        left_first: bool,
    },
    /// The element before these of a sequence.
    Elements(&'a [Expr]),
    /// The value of the first of these bindings.
    Bindings(&'a [Binding]),
    /// The bindings of a let; the scope is the one before them.
    Bound {
        /// How many names are in scope before the let.
        level: usize,
        /// How many tries are entered and not left before the let.
        tries: u64,
    },
    /// The operand to the right of these; the values of those further right, last to first.
    Waiting {
        /// The operands to the left of it.
        rest: &'a [Expr],
        /// The values of the operands to the right of it; those that wait have none.
        values: Vec<Option<Value>>,
    },
    /// The callee, after the arguments that did not wait, last to first.
    Callee {
        /// What the arguments have come to, first to last: those that wait have no value.
        waited: Vec<Option<Value>>,
    },
    /// An operand that has waited, between those of the row that are left and their values.
    Filling {
        /// The value of the callee, or none where it waits or there is no callee.
        callee: Option<Value>,
        /// The operands to the left of it, and the values of those to the right of it.
        row: Row<'a>,
    },
    /// The callee, after all arguments, last to first.
    LateCallee {
        /// The values of the arguments, last to first.
        values: Vec<Value>,
    },
    /// The body of a catch, or one of its handlers.
    Catch {
        /// Whether it is one of the handlers, and not the body.
        within: bool,
        /// How many further exits its handlers take; at 0, an exit goes on outwards.
        turns: u64,
        /// How many names are in scope before the catch.
        level: usize,
        /// How many tries are entered and not left before the catch.
        tries: u64,
    },
    /// The body of a try.
    Try {
        /// How many names are in scope before the try.
        level: usize,
        /// How many tries are entered and not left before the try.
        tries: u64,
    },
    /// The body of a callee. The activation is the one to which it returns, and the tests are those that
    /// its value meets before: of the call, and, after tail calls, of all that they have replaced.
    Return {
        /// The activation to which it returns.
        here: Here<'a>,
        /// The tests that its value meets on the way there.
        tests: Tests,
    },
}

/// What is now: an expression that begins, or how an evaluation ended.
#[derive(Drop)]
pub enum Now<'a> {
    /// An expression begins.
    Begins {
        /// The expression.
        expr: &'a Expr,
        /// Whether it is in tail position.
        tail: bool,
    },
    /// It gave a value, or none.
    Gives(Option<Value>),
    /// It left to a handler of a catch.
    Exits {
        /// The label of the handler.
        label: &'a Label,
        /// The values of the arguments of the exit, first to last.
        values: Vec<Value>,
    },
    /// It raised a value.
    Raises(Value),
    /// The run is over before its end.
    Stops(Stop),
}

impl Step<'_> {
    /// The tests of a step in tail position, which does nothing else to what a function gives.
    pub fn tests(&self) -> Option<Tests>
        ensures { MatchOption result (Unit {0}) (λ tests. Passes self.now tests) }
    {
        match self {
            Step::Typed(ty) => Some(Tests::of_type(*ty)),
            Step::Scope { .. } => Some(Tests::none()),
            Step::Catch { .. } => Some(Tests::none()),
            Step::Operand => None,
            Step::First { .. } => None,
            Step::Second { .. } => None,
            Step::Elements(_) => None,
            Step::Bindings(_) => None,
            Step::Bound { .. } => None,
            Step::Waiting { .. } => None,
            Step::Callee { .. } => None,
            Step::Filling { .. } => None,
            Step::LateCallee { .. } => None,
            Step::Try { .. } => None,
            Step::Return { .. } => None,
        }
    }
}
