//! The types of Cmm: machine components, static types, results, memory chunks and places.
ghost use Rattle.std.specs.Prelude.{◌≡◌};

/// The component of a parameter or a result. `Float` is read, and refused as a fault.
#[derive(Clone, Copy, PartialEq, Eq)]
pub enum Comp {
    /// What fits `Ty::Int`.
    Int,
    /// What fits `Ty::Val`.
    Val,
    /// What fits `Ty::Addr`.
    Addr,
    /// No value has it.
    Float,
}

impl Comp {
    ghost use Rattle.bs_words.specs.Fits.{type_of_comp};

    /// The type of a value with this component; no value is read as a float.
    pub fn ty(self) -> Ty
        ensures { result ≡ type_of_comp self }
    {
        match self {
            Comp::Int => Ty::Int,
            Comp::Val => Ty::Val,
            Comp::Addr => Ty::Addr,
            Comp::Float => Ty::Never,
        }
    }
}

/// The static type of an expression.
#[derive(Clone, Copy)]
pub enum Ty {
    /// The expression does not come back.
    Never,
    /// The expression comes back with no value.
    NoValue,
    /// A word, or a function. No pointer into a block fits it.
    Int,
    /// An OCaml value: an odd word, a word from 0x10000000 to the end of the data (included), the start of a block,
    /// or a function.
    Val,
    /// Any value, so a pointer to any place of a block too.
    Addr,
}

/// The result that an application or an external call is written with.
#[derive(Clone, Copy)]
pub enum Ret {
    /// No value.
    Unit,
    /// A value of this component.
    Comp(Comp),
}

/// The width and reading of a load or a store. The number in a name is that of the bits, the lowest byte first: a
/// load extends them to a word, `U` by zeros and `I` by the sign, and a store takes the lowest bits of a word.
#[derive(Clone, Copy)]
pub enum Chunk {
    /// 1 byte; a load brings in zeros.
    U8,
    /// 1 byte; a load brings in the sign.
    I8,
    /// 2 bytes; a load brings in zeros.
    U16,
    /// 2 bytes; a load brings in the sign.
    I16,
    /// 4 bytes; a load brings in zeros.
    U32,
    /// 4 bytes; a load brings in the sign.
    I32,
    /// A word of 64 bits.
    Int,
    /// A word of 64 bits that is an OCaml value.
    Val,
}

/// Where a register of the middle languages is.
/// A slot has no type beside its place. With a Model the prover has no proof for functions that copy
/// a value in which it is held. Without one it would have to be opened in every definition and law.
#[derive(Clone, Copy, PartialEq, Eq)]
pub enum Loc {
    /// It has no place yet.
    Unset,
    /// The machine register of that number, of x0 to x31.
    Machine(u8),
    /// The stack slot of that number, from 0 on; each has 8 bytes.
    Slot(u32),
}
