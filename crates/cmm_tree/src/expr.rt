//! Expressions, after the reader's rewriting.
use crate::file::Param;
use bs_words::{Chunk, IntOp, Name, Ret, Ty};
use std::alloc::{AllocError, Global};

/// An expression.
#[derive(Drop)]
#[cycle(expr)]
pub struct Expr {
    /// The place of its first byte, in bytes from the start of the text.
    pub at: u32,
    /// Its type once types are checked; before, this says nothing.
    pub ty: Ty,
    /// What it is.
    pub form: Form,
}

/// What an expression is: one variant for each form of the grammar. A field whose name ends in `_at` is the place of
/// that part, in bytes from the start of the text.
#[derive(Drop)]
#[cycle(expr)]
pub enum Form {
    /// An integer, as the 64-bit word that it stands for.
    Integer(u64),
    /// An integer that is written as a value of the heap, as `5a`.
    Pointer(u64),
    /// A string: the symbol of a function or of static data.
    Symbol(Name),
    /// A name that a parameter or a binding binds.
    Name(Name),
    /// `[]`: no value.
    Nothing,
    /// What computes with floats: a literal, an operator, or an access of memory. It is read, and refused
    /// as a fault at its word.
    Float {
        /// The place of the literal, operator or chunk, in bytes from the start of the text.
        word_at: u32,
        /// The operands, in the order of the text.
        operands: Vec<Expr>,
    },
    /// Bindings, one after the other, and what is evaluated in their scope.
    Let(Vec<Binding>, Box<Expr>),
    /// A new value for a mutable name.
    Assign {
        /// The place of the name, in bytes from the start of the text.
        name_at: u32,
        /// The mutable name.
        name: Name,
        /// The expression whose value it gets.
        value: Box<Expr>,
    },
    /// An operator on two operands, the left one first.
    Operator(IntOp, Box<Expr>, Box<Expr>),
    /// A load from an address.
    Load(Chunk, Box<Expr>),
    /// A store: the address, then the value.
    Store(Chunk, Box<Expr>, Box<Expr>),
    /// A new block with this header and the values of its cells.
    Alloc {
        /// The place of the header, in bytes from the start of the text.
        header_at: u32,
        /// The header of the block, a word of 64 bits.
        header: u64,
        /// The expressions whose values its cells get, the first cell first.
        operands: Vec<Expr>,
    },
    /// A call of the function that the first expression gives.
    App {
        /// The expression that gives the function.
        callee: Box<Expr>,
        /// The arguments, in the order of the text.
        arguments: Vec<Expr>,
        /// The result that the call is written with.
        result: Ret,
        /// The place of the written result, in bytes from the start of the text.
        result_at: u32,
    },
    /// A call of what lies outside the file, by its name. A frame call, marked by `frame`, is one at
    /// which the mover may move every block, and which may raise.
    Extcall {
        /// Whether it is a frame call.
        frame: bool,
        /// The symbol that is called.
        name: Name,
        /// The arguments, in the order of the text.
        arguments: Vec<Expr>,
        /// The result that the call is written with.
        result: Ret,
        /// The place of the written result, in bytes from the start of the text.
        result_at: u32,
    },
    /// A test that raises where the index, the second, is not below the bound.
    Checkbound(Box<Expr>, Box<Expr>),
    /// A raise of a value.
    Raise(Box<Expr>),
    /// Two or more expressions, one after the other.
    Seq(Vec<Expr>),
    /// The condition, and what is evaluated where it is true and where it is false.
    If(Box<Expr>, Box<Expr>, Box<Expr>),
    /// A choice by a number below `size`.
    Switch {
        /// The place of the size, in bytes from the start of the text.
        size_at: u32,
        /// The number of its indexes, which begin at 0. In a file without a fault it is 1 to 4,096.
        size: u64,
        /// The expression whose value is the index.
        selector: Box<Expr>,
        /// The cases, in the order of the text.
        cases: Vec<Case>,
    },
    /// A body, and handlers to which an exit may leave.
    Catch(Box<Expr>, Vec<Handler>),
    /// An exit to the handler of that label.
    Exit {
        /// The place of the label, in bytes from the start of the text. An exit without one has its
        /// own place here.
        label_at: u32,
        /// The label of the handler.
        label: Label,
        /// The expressions whose values the handler's parameters get, in the order of the text.
        arguments: Vec<Expr>,
    },
    /// A body, and what handles a raise out of it.
    Try {
        /// What is evaluated first.
        body: Box<Expr>,
        /// The place of the name, in bytes from the start of the text.
        name_at: u32,
        /// The name that the raised value is bound to.
        name: Name,
        /// What is evaluated after a raise out of the body.
        handler: Box<Expr>,
    },
}

/// A binding of `let` or `letmut`.
#[derive(Drop)]
#[cycle(expr)]
pub struct Binding {
    /// The place of its name.
    pub at: u32,
    /// The name that is bound.
    pub name: Name,
    /// What `letmut` declares. A binding of `let` is not mutable, and declares nothing.
    pub declared: Option<Declared>,
    /// The expression whose value it gets.
    pub value: Expr,
}

/// The component of a mutable name.
#[derive(Clone, Copy)]
pub struct Declared {
    /// The place of its word.
    pub at: u32,
    /// The component itself.
    pub comp: bs_words::Comp,
}

/// A case of a switch: the numbers that choose it, and its body.
#[derive(Drop)]
#[cycle(expr)]
pub struct Case {
    /// The numbers that choose it.
    pub indexes: Vec<CaseIndex>,
    /// What is evaluated where the case is chosen.
    pub body: Expr,
}

/// A number that chooses a case.
#[derive(Clone, Copy)]
pub struct CaseIndex {
    /// The place of the number, in bytes from the start of the text.
    pub at: u32,
    /// The number itself. Those of a switch begin at 0.
    pub index: u64,
}

/// A handler of a catch.
#[derive(Drop)]
#[cycle(expr)]
pub struct Handler {
    /// The place of its label; of a handler without one, that of its body.
    pub at: u32,
    /// The label that an exit to it has.
    pub label: Label,
    /// The names that the arguments of an exit are bound to.
    pub params: Vec<Param>,
    /// What is evaluated after an exit to it.
    pub body: Expr,
}

/// The label of a handler.
#[derive(Drop)]
pub enum Label {
    /// A label that the text names. It is visible in the body of its catch and in all its handlers.
    Named(Name),
    /// The label of a handler without one, to which the bare `exit` leaves. It is visible in the body of
    /// its catch.
    Bare,
    /// The end of a `while`, which no text names. It is visible as a named label is.
    Done,
    /// The next turn of a `while`, which no text names. It is visible as a named label is.
    Again,
}

impl Label {
    ghost use Rattle.std.specs.Prelude.{◌≡◌, IfOk};
    ghost use Rattle.cmm_tree.specs.Tree.{same_label, is_bare};
    ghost use Rattle.cmm_tree.specs.View.{label_view};

    /// The same label. The error is want of memory.
    pub fn copy(&self, alloc: Global) -> Result<Label, AllocError>
        ensures { IfOk result (λ copy. label_view copy ≡ label_view self.now) }
    {
        match self {
            Label::Named(name) => {
                let bytes = Vec::from_slice(alloc, name.as_bytes())?;
                Ok(Label::Named(Name::from_vec(bytes)))
            }
            Label::Bare => Ok(Label::Bare),
            Label::Done => Ok(Label::Done),
            Label::Again => Ok(Label::Again),
        }
    }

    /// Whether the labels are the same.
    pub fn same(&self, other: &Label) -> bool
        ensures { result ≡ same_label (label_view self.now) (label_view other.now) }
    {
        match self {
            Label::Named(name) => match other {
                Label::Named(other) => name.as_bytes() == other.as_bytes(),
                Label::Bare | Label::Done | Label::Again => false,
            },
            Label::Bare => match other {
                Label::Bare => true,
                Label::Named(_) | Label::Done | Label::Again => false,
            },
            Label::Done => match other {
                Label::Done => true,
                Label::Named(_) | Label::Bare | Label::Again => false,
            },
            Label::Again => match other {
                Label::Again => true,
                Label::Named(_) | Label::Bare | Label::Done => false,
            },
        }
    }

    /// Whether it is the label of a handler without one.
    pub fn is_bare(&self) -> bool
        ensures { result ≡ is_bare (label_view self.now) }
    {
        match self {
            Label::Bare => true,
            Label::Named(_) | Label::Done | Label::Again => false,
        }
    }
}
