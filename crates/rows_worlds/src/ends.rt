//! How calls and functions end, and where control goes.
use bs_words::{Name, Value};

/// What a call did that is handed in, or how the function ends.
#[derive(Clone, Copy)]
pub enum Doing {
    /// A value, or none.
    Gives(Option<Value>),
    /// A raise of this value.
    Raises(Value),
}

/// How a run ends.
#[derive(Clone, Copy)]
pub enum End {
    /// By giving something or by a raise.
    Does(Doing),
    /// At a call for which nothing is handed in.
    Asks,
    /// At what is improper.
    Stuck,
    /// The fuel is used up.
    Runs,
}

/// Whether a test holds of its operands.
#[derive(Clone, Copy)]
pub enum Holding {
    /// The test holds.
    Holds,
    /// The test does not hold.
    Fails,
    /// The test is improper on these operands.
    Stuck,
}

impl Holding {
    /// What a proper test comes to.
    pub(crate) fn of(holds: bool) -> Holding {
        if holds {
            Holding::Holds
        } else {
            Holding::Fails
        }
    }

    /// What the opposite test comes to.
    pub(crate) fn opposite(self) -> Holding {
        match self {
            Holding::Holds => Holding::Fails,
            Holding::Fails => Holding::Holds,
            Holding::Stuck => Holding::Stuck,
        }
    }
}

/// Where control goes after an operation.
#[derive(Clone, Copy)]
pub enum Next {
    /// To what comes after it.
    On,
    /// To the label with the number.
    To(u32),
    /// To the handler, whose trap is popped. Nothing is written on the way.
    Handler(u32),
    /// Nowhere: the run ends so.
    Over(End),
}

/// Whom a call that came back called.
#[derive(Drop)]
pub enum Asked {
    /// The function of that number.
    Function(u32),
    /// What lies outside the file, by its name.
    External(Name),
}

/// A call that came back: whom it called, and on what.
#[derive(Drop)]
pub struct Call {
    /// Whom it called.
    pub callee: Asked,
    /// The values of its arguments, in order.
    pub args: Vec<Value>,
}
