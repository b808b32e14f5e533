//! The operations that Mach and Linear have in common, by families.
//!
//! Operands and results are in the instruction. What an operation holds itself is what it is
//! known by beside them: a constant, a symbol, a chunk, an offset, a row.
//!
//! Beside these Mach has marks for its structures, and Linear labels, jumps and traps: so no mark can be in
//! Linear.

use crate::blocks::Blocks;
use crate::seq::Seq;
use bs_words::{Chunk, Comp, IntOp, Name, Ret};

/// How a value is copied: between registers, into a slot, or out of one. The three mean the same.
#[derive(Clone, Copy)]
pub enum CopyKind {
    /// Between registers.
    Move,
    /// Into a slot.
    Spill,
    /// Out of a slot.
    Reload,
}

/// The right operand of an operator, a comparison or a bound test: the last register among the operands, or a
/// constant that the machine has an immediate for.
#[derive(Clone, Copy)]
pub enum Right {
    /// The last register among the operands.
    Register,
    /// A word.
    Constant(u64),
}

/// What reads registers alone, and writes one.
#[derive(Clone, Drop)]
pub enum Pure {
    /// The operand itself.
    Copy(CopyKind),
    /// A word.
    Constant(u64),
    /// The value of a symbol.
    Symbol(Name),
    /// An integer operator on two operands, a comparison that gives 1 or 0 among them.
    Operator(IntOp, Right),
}

/// What reads or changes memory. An offset is in bytes, a word that wraps.
#[derive(Clone, Drop)]
pub enum Access {
    /// From an address.
    Load {
        /// The width of the load, and how it is extended to a word.
        chunk: Chunk,
        /// The bytes that are added to the address.
        offset: u64,
    },
    /// To an address: the first operand; the second is the value.
    Store {
        /// The width of the store.
        chunk: Chunk,
        /// The bytes that are added to the address.
        offset: u64,
    },
    /// At least one block, and a result for each. The first gets the next serial, and lies at the
    /// highest address.
    Alloc(Blocks),
}

/// Whom a call calls: a function by its symbol, or by the value of the first operand.
#[derive(Clone, Drop)]
pub enum Callee {
    /// The function of that symbol.
    Symbol(Name),
    /// The function that the first operand holds; the arguments come after it.
    Register,
}

/// What an external call is known by: its name, the component of each argument, and what it
/// answers.
#[derive(Clone, Drop)]
pub struct External {
    /// Its name.
    pub name: Name,
    /// The component of each argument, in order.
    pub params: Seq<Comp>,
    /// What it answers.
    pub result: Ret,
}

/// Calls. `result` is what the call is written with; where it is no value, what the callee gives is
/// dropped.
#[derive(Clone, Drop)]
pub enum Calling {
    /// The function goes on after it, with what the callee gives.
    Call {
        /// The function that is called.
        callee: Callee,
        /// The result that the call is written with.
        result: Ret,
    },
    /// The callee takes the place of this function.
    TailCall {
        /// The function that is called.
        callee: Callee,
        /// The result that the call is written with.
        result: Ret,
    },
    /// With `frame` set it is a frame point, and may raise.
    External {
        /// Its name, the components of its arguments, and its result.
        row: External,
        /// Whether it is a frame point, and may raise.
        frame: bool,
    },
}

/// What may leave a straight run with no mark.
#[derive(Clone, Copy)]
pub enum Leaving {
    /// The first operand is the bound, the second the index. It raises where the index is not below
    /// the bound.
    Checkbound(Right),
    /// Raises the operand.
    Raise,
    /// With the value of the function, or none.
    Return,
}

/// An operation of both languages.
/// What each does to control and to registers is said once, by its functions here and in `MachOp`.
/// Liveness and the passes ask these, in place of a match of their own.
#[derive(Clone, Drop)]
pub enum Op {
    /// Computes from registers alone.
    Pure(Pure),
    /// Reads or changes memory.
    Access(Access),
    /// Calls.
    Calling(Calling),
    /// Leaves, or may leave, by a raise or a return.
    Leaving(Leaving),
}

impl Calling {
    ghost use Rattle.std.specs.Prelude.{◌≡◌};
    ghost use Rattle.mach_ir.specs.Acts.{falls_through, may_raise};

    fn goes_on(&self) -> bool
        ensures { result ≡ falls_through (Op.Calling self.now) }
    {
        match self {
            Calling::Call { .. } => true,
            Calling::TailCall { .. } => false,
            Calling::External { .. } => true,
        }
    }

    fn may_raise(&self) -> bool
        ensures { result ≡ may_raise (Op.Calling self.now) }
    {
        match self {
            Calling::Call { .. } => true,
            Calling::TailCall { .. } => false,
            Calling::External { row: _, frame } => *frame,
        }
    }
}

impl Leaving {
    ghost use Rattle.std.specs.Prelude.{◌≡◌};
    ghost use Rattle.mach_ir.specs.Acts.{falls_through, may_raise};

    fn goes_on(self) -> bool
        ensures { result ≡ falls_through (Op.Leaving self) }
    {
        match self {
            Leaving::Checkbound(_) => true,
            Leaving::Raise => false,
            Leaving::Return => false,
        }
    }

    fn may_raise(self) -> bool
        ensures { result ≡ may_raise (Op.Leaving self) }
    {
        match self {
            Leaving::Checkbound(_) => true,
            Leaving::Raise => true,
            Leaving::Return => false,
        }
    }
}

impl Op {
    ghost use Rattle.std.specs.Prelude.{◌≡◌};
    ghost use Rattle.mach_ir.specs.Acts.{falls_through, may_raise};

    /// Whether control goes on after it.
    pub fn goes_on(&self) -> bool
        ensures { result ≡ falls_through self.now }
    {
        match self {
            Op::Pure(_) => true,
            Op::Access(_) => true,
            Op::Calling(calling) => calling.goes_on(),
            Op::Leaving(leaving) => leaving.goes_on(),
        }
    }

    /// Whether it leads to the innermost handler too: a call, a frame call, a raise or a bound test.
    pub fn may_raise(&self) -> bool
        ensures { result ≡ may_raise self.now }
    {
        match self {
            Op::Pure(_) => false,
            Op::Access(_) => false,
            Op::Calling(calling) => calling.may_raise(),
            Op::Leaving(leaving) => leaving.may_raise(),
        }
    }
}
