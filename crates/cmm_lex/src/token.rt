//! Tokens of Cmm texts.
use bs_words::IntOp;

/// A token: the place of its first byte and the place after its last, in bytes from the start of the
/// text, and what it is. Its text is that slice of the source.
#[derive(Clone, Copy)]
pub struct Token {
    /// The place of its first byte.
    pub at: u32,
    /// The place after its last byte.
    pub end: u32,
    /// What it is.
    pub kind: TokenKind,
}

/// What a token is, by its spelling.
#[derive(Clone, Copy)]
pub enum TokenKind {
    /// A word that is no keyword.
    Name,
    /// An integer, decimal or to another base.
    Integer,
    /// A decimal integer that is written as a value of the heap, as `5a`.
    Pointer,
    /// A float: digits with a point, an exponent, or both.
    Float,
    /// A string with its quotes.
    String,
    /// A word that the grammar keeps for itself.
    Keyword(Keyword),
    /// An operator on words that is spelled by signs, as `+` or `<=a`.
    Operator(IntOp),
    /// An operator on floats that is spelled by signs, as `+f`.
    FloatOperator,
    /// A parenthesis, a bracket or a colon.
    Sign(Sign),
}

/// A parenthesis, a bracket or a colon.
#[derive(Clone, Copy)]
pub enum Sign {
    /// `(`
    Open,
    /// `)`
    Close,
    /// `[`
    OpenBracket,
    /// `]`
    CloseBracket,
    /// `:`
    Colon,
}

/// A word that the grammar keeps for itself, by its spelling.
#[derive(Clone, Copy)]
pub enum Keyword {
    // functions, types and results
    /// `function`, which begins a function.
    Function,
    /// `int`: a component, a chunk, or an item of data.
    Int,
    /// `val`: a component, a chunk, or an item of data.
    Val,
    /// `addr`: a component, or an item of data.
    Addr,
    /// `float`: a component, a chunk, or an item of data, each of them refused.
    Float,
    /// `unit`: the result of a call without a value.
    Unit,
    // bindings, calls and memory
    /// `let`: immutable bindings.
    Let,
    /// `letmut`: mutable bindings.
    Letmut,
    /// `assign`: a new value for a mutable name.
    Assign,
    /// `app`: a call of a function.
    App,
    /// `extcall`: an external call.
    Extcall,
    /// `alloc`: a new block, or the mark of a frame call.
    Alloc,
    /// `load`: a load.
    Load,
    /// `store`: a store.
    Store,
    /// `checkbound`: a bound test.
    Checkbound,
    /// `intaref`: a load of an array's element, as the chunk `int`.
    Intaref,
    /// `addraref`: a load of an array's element, as the chunk `val`.
    Addraref,
    /// `intaset`: a store to an array's element, as the chunk `int`.
    Intaset,
    /// `addraset`: a store to an array's element, as the chunk `val`.
    Addraset,
    // operators that are words
    /// `mod`: the remainder.
    Mod,
    /// `mulh`: the high half of a product.
    Mulh,
    /// `and`: the operator, or what joins labelled handlers.
    And,
    /// `or`: the operator.
    Or,
    /// `xor`: the operator.
    Xor,
    // control
    /// `raise`: a raise of a value.
    Raise,
    /// `reraise`: as `raise`.
    Reraise,
    /// `raise_notrace`: as `raise`.
    RaiseNotrace,
    /// `seq`: expressions, one after the other.
    Seq,
    /// `if`: a choice by a condition.
    If,
    /// `switch`: a choice by a number.
    Switch,
    /// `case`: a number that chooses a case of a switch.
    Case,
    /// `while`: a loop.
    While,
    /// `catch`: a body with handlers for exits.
    Catch,
    /// `with`: what comes before the handlers of a `catch` or a `try`.
    With,
    /// `exit`: an exit to a handler.
    Exit,
    /// `try`: a body with a handler for raises.
    Try,
    // floats
    /// `absf`, refused.
    Absf,
    /// `floatofint`, refused.
    Floatofint,
    /// `intoffloat`, refused.
    Intoffloat,
    /// `floataref`, refused.
    Floataref,
    /// `floataset`, refused.
    Floataset,
    // chunks
    /// `unsigned`: a width follows, and a load brings in zeros.
    Unsigned,
    /// `signed`: a width follows, and a load brings in the sign.
    Signed,
    /// `byte`: 1 byte, of a chunk or an item of data.
    Byte,
    /// `half`: 2 bytes, of a chunk or an item of data.
    Half,
    /// `int32`: 4 bytes, of a chunk.
    Int32,
    /// `float32`: a chunk, refused.
    Float32,
    /// `float64`: a chunk, refused.
    Float64,
    // data
    /// `data`: may begin a list of static data.
    Data,
    /// `skip`: so many zero bytes of data.
    Skip,
    /// `align`: zero bytes of data up to a multiple.
    Align,
    /// `string`: the bytes of a string, as data.
    String,
    /// `global`: a symbol that the file must define.
    Global,
}
