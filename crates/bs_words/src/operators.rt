//! The integer operators and comparisons of Cmm.

/// A comparison: equal, not equal, less, at most, greater, at least. Signed or unsigned is said by the operator that
/// holds it.
#[derive(Clone, Copy)]
pub enum CmpOp {
    /// Equal.
    Eq,
    /// Not equal.
    Ne,
    /// The left one is less.
    Lt,
    /// The left one is less or equal.
    Le,
    /// The left one is greater.
    Gt,
    /// The left one is greater or equal.
    Ge,
}

/// An operator on two operands. On words of 64 bits, sums, differences and products wrap, `And`, `Or` and `Xor` go
/// bit by bit, and the right operand of a shift is the number of bits.
#[derive(Clone, Copy)]
pub enum IntOp {
    /// The sum.
    Add,
    /// The left operand less the right one.
    Sub,
    /// The low half of the product.
    Mul,
    /// The high half of the signed product.
    Mulh,
    /// The signed quotient, toward zero.
    Div,
    /// The signed remainder, with the sign of the dividend.
    Mod,
    /// The bits that both have.
    And,
    /// The bits that at least one has.
    Or,
    /// The bits that exactly one has.
    Xor,
    /// The shift to the left, which brings in zeros.
    Shl,
    /// The shift to the right that brings in zeros.
    Shr,
    /// The shift to the right that brings in the sign.
    Sar,
    /// A signed comparison: 1 where it holds, else 0.
    Cmp(CmpOp),
    /// An unsigned comparison: 1 where it holds, else 0.
    CmpU(CmpOp),
    /// A sum that is an OCaml value.
    AddV,
    /// A sum that is an address inside a block.
    AddA,
}
