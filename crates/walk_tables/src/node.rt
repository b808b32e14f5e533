//! The table of what a walk does: numbered nodes, each with an event and the nodes that may come next.
ghost use Rattle.std.specs.Prelude.{◌≡◌, ◌∷◌, []};
ghost use Rattle.walk_tables.specs.Cells.{event_of};
ghost use Rattle.walk_tables.specs.Table.{shown, next_cells};
ghost use Rattle.walk_tables.specs.declared.node.Step.TheVariants as steps;

use crate::items::Action;

/// What a walk does at a node.
#[derive(Clone, Copy)]
pub enum Step {
    /// No event.
    Quiet,
    /// Something is bound to a slot, at this place: an address or not.
    Binds {
        /// The number of the slot, from 0 on.
        slot: usize,
        /// Whether what is bound is an address.
        address: bool,
        /// The place of what is bound, in bytes from the start of the text.
        at: u32,
    },
    /// What is in a slot is used, at this place.
    Uses {
        /// The number of the slot, from 0 on.
        slot: usize,
        /// The place of what uses it, in bytes from the start of the text.
        at: u32,
    },
    /// A frame point.
    Passes {
        /// The place of the frame point, in bytes from the start of the text.
        at: u32,
    },
}

/// The nodes that may come next, by number. Most nodes have one or two, which need no memory of their own.
/// Two are an array, so that all forms are lent as a slice, and definitions see one list.
#[derive(Drop)]
pub enum Next {
    /// None: a walk ends there.
    Nowhere,
    /// The node of that number.
    One(usize),
    /// An array, so that both can be lent as a slice.
    Two([usize; 2]),
    /// Any number of nodes, as after a switch.
    Any(Vec<usize>),
}

impl Next {
    /// The nodes, in order.
    pub fn as_slice(&self) -> &[usize]
        ensures { result.now ≡ next_cells self.now }
    {
        match self {
            Next::Nowhere => &[],
            Next::One(cell) => std::slice::from_ref(cell),
            Next::Two(cells) => cells,
            Next::Any(cells) => cells.as_slice(),
        }
    }
}

/// One node: what a walk does there, and the numbers of the nodes that may come next.
#[derive(Drop)]
pub struct Node {
    /// What a walk does there.
    pub step: Step,
    /// The nodes that may come next.
    pub next: Next,
}

fn step_of(action: Action) -> Step
    ensures { shown result ≡ event_of action ∷ [] }
{
    match action {
        Action::Binds { slot, address, at } => Step::Binds { slot, address, at },
        Action::Uses { slot, at } => Step::Uses { slot, at },
        Action::Passes { at } => Step::Passes { at },
    }
}

/// A node with this event, with one node after it.
pub fn telling(action: Action, cell: usize) -> Node
    ensures { (shown result.step ≡ event_of action ∷ []) × (next_cells result.next ≡ cell ∷ []) }
{
    Node {
        step: step_of(action),
        next: Next::One(cell),
    }
}

/// A node without an event, with no node after it.
pub fn last() -> Node
    ensures { (result.step ≡ steps.Quiet) × (next_cells result.next ≡ []) }
{
    Node {
        step: Step::Quiet,
        next: Next::Nowhere,
    }
}

/// A node without an event, with one node after it.
pub fn quiet(cell: usize) -> Node
    ensures { (result.step ≡ steps.Quiet) × (next_cells result.next ≡ cell ∷ []) }
{
    Node {
        step: Step::Quiet,
        next: Next::One(cell),
    }
}

/// The same with two nodes after it.
pub fn forked(first: usize, second: usize) -> Node
    ensures { (result.step ≡ steps.Quiet) × (next_cells result.next ≡ first ∷ second ∷ []) }
{
    Node {
        step: Step::Quiet,
        next: Next::Two([first, second]),
    }
}

/// A node without an event, with these nodes after it.
pub fn any_of(next: Vec<usize>) -> Node
    ensures { (result.step ≡ steps.Quiet) × (next_cells result.next ≡ next.items) }
{
    Node {
        step: Step::Quiet,
        next: Next::Any(next),
    }
}
