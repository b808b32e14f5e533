//! Where an exit and a raise lead.
ghost use Rattle.std.specs.Prelude.{◌≡◌, ◌&&◌, not, ℕ, List, Some, length};
ghost use Rattle.cmm_tree.specs.View.{label_view};
ghost use Rattle.cmm_tree.specs.declared.expr.Handler as declared_handler;
ghost use Rattle.cmm_tree.specs.Rows.{handlers_of};
ghost use Rattle.walk_tables.specs.Walks.{Slotted, Task, handler_for, behind_exit, behind_raise};
ghost use Rattle.cmm_tree.specs.Tree.{same_label, is_bare};
ghost use Rattle.walk_tables.specs.Cells.{cells, item_at, tasks_at};
ghost use Rattle.walk_tables.specs.Sound.{AreItemsSound, IsItemHeld, HandlersAt, LeadsTo};
ghost use Rattle.walk_tables.specs.Leaving.{IsRow, HasRow, rest_in, own_handler, exit_tasks, raise_rest};

use crate::items::{Cells, Item};
use cmm_tree::{Handler, Label};

/// Whether an exit of this label finds the handler of the other one. A bare one is not visible in the
/// handlers.
fn finds(label: &Label, own: &Label, in_handler: bool) -> bool
    ensures { result ≡ (same_label (label_view label.now) (label_view own.now) && not (is_bare
        (label_view label.now) && in_handler)) }
{
    let same = label.same(own);
    let bare = label.is_bare();
    same && !(bare && in_handler)
}

/// Which of these handlers, which are in a row of cells from `first` on, an exit finds.
fn find_handler(
    label: &Label,
    in_handler: bool,
    handlers: &[Handler],
    first: usize,
) -> Option<usize>
    requires { IsRow first handlers.now }
    ensures { (count : ℕ) (tasks : ℕ →
        List Task) (s : List Slotted) (slot : ℕ) (all : List declared_handler.Handler)
        (behind : List Task) → HandlersAt count tasks first s slot all behind handlers.now →
        LeadsTo count tasks result (handler_for
        (label_view label.now) s slot in_handler (handlers_of all) behind
        (handlers_of handlers.now)) }
{
    match handlers {
        [] => None,
        [own, others @ ..] => {
            if finds(label, &own.label, in_handler) {
                return Some(first);
            }
            let next = first + 1;
            find_handler(label, in_handler, others, next)
        }
    }
}

/// The handler that the catch of this cell has for the label.
fn own_handler(label: &Label, item: Item<'_>) -> Option<usize>
    requires { HasRow item }
    ensures { (count : ℕ) (scopes : ℕ → List Slotted) (tasks : ℕ →
        List Task) → IsItemHeld count scopes tasks item.entry →
        LeadsTo count tasks result (own_handler (label_view label.now) scopes tasks item.entry) }
{
    match item {
        Item::Catches {
            in_handler,
            handlers,
            first,
            ..
        } => find_handler(label, in_handler, handlers, first),
        Item::Handler {
            handlers,
            first,
            ..
        } => find_handler(label, true, handlers, first),
        Item::Empty
        | Item::Named { .. }
        | Item::Does { .. }
        | Item::Evaluates { .. }
        | Item::Enters { .. }
        | Item::Either { .. }
        | Item::OneOf { .. }
        | Item::MayRaise { .. }
        | Item::Raises { .. }
        | Item::Exits { .. }
        | Item::Handles { .. } => None,
    }
}

/// The cell after the task of this one.
fn rest_of(item: Item<'_>) -> Option<usize>
    ensures { result ≡ rest_in item.entry }
{
    match item {
        Item::Empty => None,
        Item::Named { .. } => None,
        Item::Does { rest, .. } => Some(rest),
        Item::Evaluates { rest, .. } => Some(rest),
        Item::Enters { rest, .. } => Some(rest),
        Item::Either { rest, .. } => Some(rest),
        Item::OneOf { rest, .. } => Some(rest),
        Item::MayRaise { rest } => Some(rest),
        Item::Raises { rest } => Some(rest),
        Item::Exits { rest, .. } => Some(rest),
        Item::Catches { rest, .. } => Some(rest),
        Item::Handler { rest, .. } => Some(rest),
        Item::Handles { rest, .. } => Some(rest),
    }
}

impl<'a> Cells<'a> {
    /// The cell to which an exit leads from this one, if a handler of its label is visible.
    #[cycle(exit)]
    pub fn exit(&self, label: &Label, cell: usize) -> Option<usize>
        requires { AreItemsSound (cells self.now) }
        ensures { LeadsTo (length (cells self.now)) (tasks_at (cells self.now)) result
            (behind_exit (label_view label.now) (tasks_at (cells self.now) cell)) }
    {
        match self.get(cell) {
            None => None,
            Some(item) => self.exit_in(label, cell, item),
        }
    }

    #[cycle(exit)]
    fn exit_in(&self, label: &Label, cell: usize, item: Item<'a>) -> Option<usize>
        requires sound { AreItemsSound (cells self.now) }
        requires here { item_at (cells self.now) cell ≡ Some item }
        ensures { LeadsTo (length (cells self.now)) (tasks_at (cells self.now)) result
            (behind_exit (label_view label.now) (tasks_at (cells self.now) cell)) }
    {
        match own_handler(label, item) {
            Some(handler) => Some(handler),
            None => self.exit_behind(label, cell, item),
        }
    }

    #[cycle(exit)]
    fn exit_behind(&self, label: &Label, cell: usize, item: Item<'a>) -> Option<usize>
        requires sound { AreItemsSound (cells self.now) }
        requires here { item_at (cells self.now) cell ≡ Some item }
        ensures { LeadsTo (length (cells self.now)) (tasks_at (cells self.now)) result
            (exit_tasks (label_view label.now) (tasks_at (cells self.now)) (rest_in item.entry)) }
    {
        match rest_of(item) {
            None => None,
            Some(rest) => {
                if rest < cell {
                    return self.exit(label, rest);
                }
                None
            }
        }
    }

    /// The cell to which a raise leads from this one, if a try of the function is active.
    #[cycle(raise)]
    pub fn raise(&self, cell: usize) -> Option<usize>
        ensures { AreItemsSound (cells self.now) → LeadsTo (length (cells self.now)) (tasks_at
            (cells self.now)) result (behind_raise (tasks_at (cells self.now) cell)) }
    {
        match self.get(cell) {
            None => None,
            Some(item) => self.raise_in(cell, item),
        }
    }

    #[cycle(raise)]
    fn raise_in(&self, cell: usize, item: Item<'a>) -> Option<usize>
        ensures { AreItemsSound (cells self.now) → item_at (cells self.now) cell ≡ Some item.entry →
            LeadsTo (length (cells self.now)) (tasks_at (cells self.now)) result
            (behind_raise (tasks_at (cells self.now) cell)) }
    {
        match item {
            Item::Handles { entry, .. } => Some(entry),
            Item::Empty
            | Item::Named { .. }
            | Item::Does { .. }
            | Item::Evaluates { .. }
            | Item::Enters { .. }
            | Item::Either { .. }
            | Item::OneOf { .. }
            | Item::MayRaise { .. }
            | Item::Raises { .. }
            | Item::Exits { .. }
            | Item::Catches { .. }
            | Item::Handler { .. } => self.raise_behind(cell, item),
        }
    }

    #[cycle(raise)]
    fn raise_behind(&self, cell: usize, item: Item<'a>) -> Option<usize>
        ensures { AreItemsSound (cells self.now) → item_at (cells self.now) cell ≡ Some item.entry →
            LeadsTo (length (cells self.now)) (tasks_at (cells self.now)) result
            (raise_rest (tasks_at (cells self.now)) (rest_in item.entry)) }
    {
        match rest_of(item) {
            None => None,
            Some(rest) => {
                if rest < cell {
                    return self.raise(rest);
                }
                None
            }
        }
    }
}
