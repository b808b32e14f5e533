//! Values of a run of a program, and what an observer sees of them.
use crate::list::List;
use crate::name::Name;

/// A value of a run.
#[derive(Clone, Copy, PartialEq, Eq)]
pub enum Value {
    /// A word of 64 bits. Addresses of static data are words.
    Word(u64),
    /// The address `offset` bytes after the start of the block that was allocated as number `serial`.
    Block {
        /// The number of the block in the order of allocation, from 0 on.
        serial: u64,
        /// The bytes from the start of the block to the address.
        offset: u64,
    },
    /// The function of the file of that number, in the order of the text.
    Function(u32),
}

/// What an observer sees of a value: a word, or a block by the order of its allocation.
#[derive(Clone, Copy)]
pub enum Obs {
    /// A word of 64 bits. A function is seen as the word of its address.
    Word(u64),
    /// The number of a block in the order of allocation, from 0 on.
    Block(u64),
}

/// An external call as an observer sees it.
#[derive(Clone, Drop)]
pub struct Call {
    /// The symbol that is called.
    pub name: Name,
    /// What is seen of the arguments, the first one first.
    pub args: List<Obs>,
}

/// Why a run is improper. An access is a load or a store; what fits a type is said at `Ty`.
#[derive(Clone, Copy)]
pub enum Kind {
    /// An access is not at a multiple of its bytes, or does not lie whole in one block, its header included, or in
    /// one list of static data; or its address is a function.
    BadAddress,
    /// A value does not fit int: it is a pointer into a block, which the mover would not find there.
    HiddenPointer,
    /// A value does not fit val: it is an even word outside the data range, or a pointer that is not to the start of
    /// its block. It is also the kind where a value is due and there is none, as in no accepted text.
    BadValue,
    /// An operator that is no comparison is on two values, one of which at least is no word, and has no result for
    /// them; or an index of a switch, or an operand of a bound test, is no word.
    PointerArithmetic,
    /// A comparison is of two values, one of which at least is no word, and has no result for them; or a condition is
    /// a pointer that is not from the header of its block to its end, both counted.
    PointerOrder,
    /// An access of less than 8 bytes is to a cell that holds no word, or stores a value that is none.
    PartOfPointer,
    /// A store is to the header of a block.
    HeaderWrite,
    /// A quotient or a remainder has the divisor 0, whatever is divided.
    DivideByZero,
    /// A shift is by 64 or more, as an unsigned word, whatever is shifted.
    ShiftRange,
    /// An index of a switch is not below the switch's number of indexes.
    SwitchRange,
    /// What is called is no function, or one that takes another number of arguments or whose parameters the arguments
    /// do not fit; or a call that is written with a value gives none.
    BadCall,
}
