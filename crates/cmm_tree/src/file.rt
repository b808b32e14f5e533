//! Files: the functions and the static data of a text, in its order.
use crate::expr::Expr;
use bs_words::{Comp, List, Name};

/// What a text holds.
#[derive(Drop)]
pub struct File {
    /// The functions and lists of static data, in the order of the text.
    pub items: List<Item>,
}

/// One item of a file.
/// Each is a struct of its own, so that either is lent by itself.
#[derive(Drop)]
pub enum Item {
    /// A function.
    Function(Function),
    /// A list of static data.
    Data(DataList),
}

/// A function.
#[derive(Drop)]
pub struct Function {
    /// The place of its `(`, in bytes from the start of the text.
    pub at: u32,
    /// The place of its symbol.
    pub name_at: u32,
    /// Its symbol.
    pub name: Name,
    /// Its parameters.
    pub params: List<Param>,
    /// Its body.
    pub body: Expr,
    /// The number of its tokens, its parentheses counted.
    pub tokens: u32,
}

/// A parameter of a function or of a handler.
#[derive(Drop)]
pub struct Param {
    /// The place of its name, in bytes from the start of the text.
    pub at: u32,
    /// The name that is bound.
    pub name: Name,
    /// The component that it is declared with.
    pub comp: Comp,
    /// The place of its component.
    pub comp_at: u32,
}

/// A list of static data.
#[derive(Drop)]
pub struct DataList {
    /// The place of its `(`, in bytes from the start of the text.
    pub at: u32,
    /// Its items, in the order of the text.
    pub items: List<DataItem>,
}

/// An item of a list of static data.
#[derive(Drop)]
pub struct DataItem {
    /// The place of its first token, in bytes from the start of the text.
    pub at: u32,
    /// What it is.
    pub datum: Datum,
}

/// What an item of static data is.
///
/// An integer has its word, or none where it is out of range, which no file that is read has.
#[derive(Drop)]
pub enum Datum {
    /// A symbol that is defined at this place.
    Define(Name),
    /// One byte.
    Byte(Option<u64>),
    /// Two bytes.
    Half(Option<u64>),
    /// Eight bytes.
    Int(Option<u64>),
    /// Eight bytes that are a value of the heap, and a root.
    Val(Option<u64>),
    /// The address of a symbol, whose string is at `name_at`. It is a root where it is written as a `val`.
    Address {
        /// Whether it is a root.
        root: bool,
        /// The place of the symbol's string, in bytes from the start of the text.
        name_at: u32,
        /// The symbol.
        name: Name,
    },
    /// That many zero bytes.
    Skip(Option<u64>),
    /// Zero bytes to a multiple.
    Align(Option<u64>),
    /// The bytes of a string, its escapes replaced.
    Text(List<u8>),
    /// A symbol that must be defined. It changes nothing.
    Global {
        /// The place of the symbol's string, in bytes from the start of the text.
        name_at: u32,
        /// The symbol.
        name: Name,
    },
    /// A float. It is read, and refused as a fault.
    Float,
}
