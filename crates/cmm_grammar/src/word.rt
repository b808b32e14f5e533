//! What the words of the grammar begin.
use bs_words::{Chunk, IntOp};

/// What the word after a parenthesis begins, of the forms of expressions.
#[derive(Clone, Copy)]
pub enum Head {
    /// `let`: immutable bindings, and their scope.
    Let,
    /// `letmut`: mutable bindings, and their scope.
    Letmut,
    /// `assign`: a new value for a mutable name.
    Assign,
    /// `app`: a call of a function.
    App,
    /// `extcall`: a call of what lies outside the file.
    Extcall,
    /// `alloc`: a new block.
    Alloc,
    /// `load`: what memory holds at an address.
    Load,
    /// `store`: a value that memory takes at an address.
    Store,
    /// A form of two operands.
    Pair(Pair),
    /// A form of three operands.
    Triple(Triple),
    /// `while`: a loop.
    While,
    /// `raise`, `reraise` and `raise_notrace`.
    Raise,
    /// `seq`: expressions, one after the other.
    Seq,
    /// `switch`: a choice by a number.
    Switch,
    /// `catch`: a body, and the handlers that an exit may leave to.
    Catch,
    /// `exit`: an exit to a handler.
    Exit,
    /// `try`: a body, and the handler that a raise comes to.
    Try,
    /// What computes with floats.
    Float,
}

/// A form of two operands.
#[derive(Clone, Copy)]
pub enum Pair {
    /// An operator: the left operand, then the right one.
    Operator(IntOp),
    /// `checkbound`: the bound, then the index.
    Checkbound,
    /// A load of an array's element: the array, then the index.
    Element(Chunk),
}

/// A form of three operands.
#[derive(Clone, Copy)]
pub enum Triple {
    /// `if`: the condition, then what is evaluated where it holds and where it does not.
    If,
    /// A store to an array's element: the array, the index, then the value.
    SetElement(Chunk),
}

/// What begins a chunk.
#[derive(Clone, Copy)]
pub enum ChunkWord {
    /// A chunk of one word.
    Whole(Chunk),
    /// `unsigned`: a width follows.
    Unsigned,
    /// `signed`: a width follows.
    Signed,
    /// A chunk of floats.
    Float,
}

/// The width of a chunk below a word.
#[derive(Clone, Copy)]
pub enum Width {
    /// `byte`: 1 byte.
    Byte,
    /// `half`: 2 bytes.
    Half,
    /// `int32`: 4 bytes.
    Int32,
}

/// What begins an item of static data.
#[derive(Clone, Copy)]
pub enum DataWord {
    /// A symbol, which the item defines.
    Define,
    /// `byte`: an integer of 1 byte.
    Byte,
    /// `half`: an integer of 2 bytes.
    Half,
    /// `int`: an integer of 8 bytes.
    Int,
    /// `val`: a root cell, with an integer or a symbol's address.
    Val,
    /// `addr`: a symbol's address, in a cell that is no root.
    Addr,
    /// `skip`: so many zero bytes.
    Skip,
    /// `align`: zero bytes up to a multiple.
    Align,
    /// `string`: the bytes of a string.
    Text,
    /// `global`: a symbol that the file must define.
    Global,
    /// `float`, which is read and refused.
    Float,
}
