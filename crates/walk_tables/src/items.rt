//! What is left to do at each point of a function, as cells that share what they have in common.
ghost use Rattle.std.specs.Prelude.{◌≡◌, ◌∷◌, [], length, slice_get, IfOk};
ghost use Rattle.walk_tables.specs.Cells.{cells, item_at};

use bs_words::{Name, Ty};
use cmm_tree::{Binding, Case, Expr, Handler, Label};
use std::alloc::{AllocError, Global};

/// What a walk does, and reports.
#[derive(Clone, Copy)]
pub enum Action {
    /// Something is bound to a slot, at this place: an address or not.
    Binds {
        /// The number of the slot, from 0 on.
        slot: usize,
        /// Whether what is bound is an address.
        address: bool,
        /// The place of what is bound, in bytes from the start of the text.
        at: u32,
    },
    /// What is in a slot is used, at this place.
    Uses {
        /// The number of the slot, from 0 on.
        slot: usize,
        /// The place of what uses it, in bytes from the start of the text.
        at: u32,
    },
    /// A frame point.
    Passes {
        /// The place of the frame point, in bytes from the start of the text.
        at: u32,
    },
}

/// A name and the scope around it, or a task and the cell of those after it.
#[derive(Clone, Copy)]
pub enum Item<'a> {
    /// No name, and nothing left to do.
    Empty,
    /// A name in scope, which has this slot, and the cell of the scope around it.
    Named {
        /// The name.
        name: &'a Name,
        /// The type of its value.
        ty: Ty,
        /// Whether an assignment may change it.
        mutable: bool,
        /// The number of the slot that walks bind it to, from 0 on.
        slot: usize,
        /// The cell of the scope around it.
        outer: usize,
    },
    /// A walk does this, and then the rest.
    Does {
        /// What the walk does.
        action: Action,
        /// The cell of what is done after it.
        rest: usize,
    },
    /// An expression is evaluated in this scope, with the slots from this one on free.
    Evaluates {
        /// The cell of the scope in which it is evaluated.
        scope: usize,
        /// The number of the first slot that is free.
        slot: usize,
        /// The expression.
        expr: &'a Expr,
        /// The cell of what is done after it.
        rest: usize,
    },
    /// Bindings of a let, and then its body.
    Enters {
        /// The cell of the scope of the first of the bindings.
        scope: usize,
        /// The number of the first slot that is free, which the first of the bindings takes.
        slot: usize,
        /// The bindings that are left, in order.
        bindings: &'a [Binding],
        /// The body of the let.
        body: &'a Expr,
        /// The cell of what is done after the let.
        rest: usize,
    },
    /// One of two is evaluated.
    Either {
        /// The cell of the scope in which either is evaluated.
        scope: usize,
        /// The number of the first slot that is free.
        slot: usize,
        /// What is evaluated where the condition is true.
        on_true: &'a Expr,
        /// What is evaluated where the condition is false.
        on_false: &'a Expr,
        /// The cell of what is done after it.
        rest: usize,
    },
    /// One of the cases is evaluated.
    OneOf {
        /// The cell of the scope in which each is evaluated.
        scope: usize,
        /// The number of the first slot that is free.
        slot: usize,
        /// The cases of the switch, in order.
        cases: &'a [Case],
        /// The cell of what is done after it.
        rest: usize,
    },
    /// A walk goes on with the rest, or raises.
    MayRaise {
        /// The cell of the rest, in which a raise finds its handler too.
        rest: usize,
    },
    /// A raise, which leads to the handler of the innermost try around it, if there is one.
    Raises {
        /// The cell of the rest, in which the raise finds its handler.
        rest: usize,
    },
    /// An exit leads to the handler of the label.
    Exits {
        /// The label of the exit.
        label: &'a Label,
        /// The cell of the rest, in which the exit finds its handler.
        rest: usize,
    },
    /// After the body of a catch, or one of its handlers, which begin at the cells from `first` on.
    Catches {
        /// The cell of the scope around the catch.
        scope: usize,
        /// The number of the first slot that is free around the catch.
        slot: usize,
        /// Whether this is after a handler, and not after the body.
        in_handler: bool,
        /// All handlers of the catch, in order.
        handlers: &'a [Handler],
        /// The cell of the first handler.
        first: usize,
        /// The cell of what is done after the catch.
        rest: usize,
    },
    /// A handler of a catch, and what is after the catch.
    Handler {
        /// The cell of the scope around the catch.
        scope: usize,
        /// The number of the first slot that is free, which the first parameter takes.
        slot: usize,
        /// All handlers of the catch, in order.
        handlers: &'a [Handler],
        /// The handler of this cell.
        own: &'a Handler,
        /// The cell of the first handler.
        first: usize,
        /// The cell of what is done after the catch.
        rest: usize,
    },
    /// After the body of a try, whose handler begins at the cell `entry`.
    Handles {
        /// The cell of the scope around the try.
        scope: usize,
        /// The number of the first slot that is free, which the name takes.
        slot: usize,
        /// The place of the name, in bytes from the start of the text.
        name_at: u32,
        /// The name that the handler has for the raised value.
        name: &'a Name,
        /// The expression that is evaluated after a raise.
        handler: &'a Expr,
        /// The cell to which a raise leads.
        entry: usize,
        /// The cell of what is done after the try.
        rest: usize,
    },
}

/// The cells of a function. Each is numbered by how many came before it. A slot in use is at most the
/// number of cells, since each slot before it has a cell; so numbers and slots have room for sums.
#[derive(Drop)]
pub struct Cells<'a> {
    items: Vec<Item<'a>>,
}

impl<'a> Cells<'a> {
    /// No cells. It takes no memory.
    pub fn new(alloc: Global) -> Self
        ensures { cells result ≡ [] }
    {
        Cells {
            items: Vec::new(alloc),
        }
    }

    /// The number of cells.
    pub fn len(&self) -> usize
        ensures { result ≡ length (cells self.now) }
    {
        self.items.len()
    }

    /// A further cell. The only error is want of memory.
    pub fn push(&mut self, item: Item<'a>) -> Result<usize, AllocError>
        ensures { IfOk result (λ cell. (cell ≡ length (cells self.old)) ×
            (cells self.new ≡ item.entry ∷ cells self.old)) }
    {
        let cell = self.items.len();
        self.items.push(item)?;
        Ok(cell)
    }

    /// The cell of this number.
    pub fn get(&self, cell: usize) -> Option<Item<'a>>
        ensures { result ≡ item_at (cells self.now) cell }
    {
        nth(self.items.as_slice(), cell)
    }
}

/// The item at an index, counted from 0, or none from the length on.
fn nth<'a>(items: &[Item<'a>], index: usize) -> Option<Item<'a>>
    ensures { result ≡ slice_get items.now index }
{
    items.get(index).copied()
}
