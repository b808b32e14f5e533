//! The instructions of Linear.
ghost use Rattle.std.specs.Prelude.{◌≡◌, ℕ};
ghost use Rattle.std.specs.Option.{option_to_list};
ghost use Rattle.mach_ir.specs.Labels.{is_that_label};
ghost use Rattle.lin_ir.specs.Formed.{is_label, label_of};
ghost use Rattle.lin_ir.specs.Meaning.{has_label};

use bs_words::{Comp, Loc, Name, Ret};
use mach_ir::{Label, Op, Seq, Test};

/// A location, with the component as which it is read or written.
#[derive(Clone, Copy)]
pub struct Spot {
    /// The location.
    pub loc: Loc,
    /// The component.
    pub comp: Comp,
}

/// How control goes. A label is that of the place after the line that has it.
#[derive(Clone, Drop)]
pub enum Flow {
    /// The place of that label. It does nothing.
    Label(Label),
    /// To the label.
    Jump(Label),
    /// A jump that is an exit of the text: it costs a unit.
    Exit(Label),
    /// To the label where the test holds, else on.
    Branch {
        /// What is tested of the operands.
        test: Test,
        /// The label to which control goes where the test holds.
        label: Label,
    },
    /// For each index from 0 on, its label.
    Switch(Seq<Label>),
    /// Pushes a trap whose handler is at the label.
    PushTrap(Label),
    /// Pops the innermost trap.
    PopTrap,
    /// The entry of a handler, right after its label. The result is the raised value.
    EnterTrap,
}

/// What an instruction of Linear does.
#[derive(Clone, Drop)]
pub enum LinOp {
    /// An operation that Mach has too.
    Op(Op),
    /// What steers control.
    Flow(Flow),
}

impl LinOp {
    /// The label that a line with this operation has, if it has one.
    pub fn own_label(&self) -> Option<Label>
        ensures first { (l : ℕ) → has_label l self.now ≡ is_that_label result l }
        ensures all { option_to_list result ≡ label_of self.now }
    {
        match self {
            LinOp::Flow(Flow::Label(label)) => Some(*label),
            LinOp::Flow(Flow::Jump(_)) => None,
            LinOp::Flow(Flow::Exit(_)) => None,
            LinOp::Flow(Flow::Branch { test: _, label: _ }) => None,
            LinOp::Flow(Flow::Switch(_)) => None,
            LinOp::Flow(Flow::PushTrap(_)) => None,
            LinOp::Flow(Flow::PopTrap) => None,
            LinOp::Flow(Flow::EnterTrap) => None,
            LinOp::Op(_) => None,
        }
    }

    /// Whether it is a label.
    pub fn is_label(&self) -> bool
        ensures { result ≡ is_label self.now }
    {
        match self {
            LinOp::Flow(Flow::Label(_)) => true,
            LinOp::Flow(Flow::Jump(_)) => false,
            LinOp::Flow(Flow::Exit(_)) => false,
            LinOp::Flow(Flow::Branch { test: _, label: _ }) => false,
            LinOp::Flow(Flow::Switch(_)) => false,
            LinOp::Flow(Flow::PushTrap(_)) => false,
            LinOp::Flow(Flow::PopTrap) => false,
            LinOp::Flow(Flow::EnterTrap) => false,
            LinOp::Op(_) => false,
        }
    }

    /// Whether it is that label.
    pub fn has_label(&self, wanted: Label) -> bool
        ensures { result ≡ has_label wanted self.now }
    {
        match self {
            LinOp::Flow(Flow::Label(label)) => *label == wanted,
            LinOp::Flow(Flow::Jump(_)) => false,
            LinOp::Flow(Flow::Exit(_)) => false,
            LinOp::Flow(Flow::Branch { test: _, label: _ }) => false,
            LinOp::Flow(Flow::Switch(_)) => false,
            LinOp::Flow(Flow::PushTrap(_)) => false,
            LinOp::Flow(Flow::PopTrap) => false,
            LinOp::Flow(Flow::EnterTrap) => false,
            LinOp::Op(_) => false,
        }
    }
}

/// An instruction: its operands and results are locations.
#[derive(Clone, Drop)]
pub struct Line {
    /// What it does.
    pub op: LinOp,
    /// The operands, in order.
    pub args: Seq<Spot>,
    /// The results, in order.
    pub results: Seq<Spot>,
}

/// One function.
#[derive(Clone, Drop)]
pub struct Lin {
    /// Its symbol.
    pub name: Name,
    /// Where its arguments are at its entry, in order.
    pub params: Seq<Spot>,
    /// What it gives.
    pub result: Ret,
    /// Its slots are those below this number.
    pub slots: u32,
    /// Its lines, in the order in which they are laid out.
    pub code: Seq<Line>,
}
