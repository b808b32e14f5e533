//! The rows of the table, one variant of `Instr` for each format and an enum of its rows inside.

/// The rows of OP: `rd` becomes the operation on `rs1` and `rs2`, each of 64 bits. Sums, differences and products
/// wrap, and `Xor`, `Or` and `And` go bit by bit. A quotient by 0 is 2^64 - 1, and its remainder `rs1` (the manual's
/// chapter on the M extension).
#[derive(Copy, Clone, Debug)]
pub enum AluOp {
    /// The sum.
    Add,
    /// `rs1` less `rs2`.
    Sub,
    /// The shift to the left, by the low 6 bits of `rs2`.
    Sll,
    /// 1 where `rs1` is less than `rs2` as a signed number, else 0.
    Slt,
    /// 1 where `rs1` is less than `rs2` as an unsigned number, else 0.
    Sltu,
    /// The bits that exactly one has.
    Xor,
    /// The shift to the right that brings in zeros, by the low 6 bits of `rs2`.
    Srl,
    /// The shift to the right that brings in the sign, by the low 6 bits of `rs2`.
    Sra,
    /// The bits that at least one has.
    Or,
    /// The bits that both have.
    And,
    /// The low half of the product.
    Mul,
    /// The high half of the product of signed numbers.
    Mulh,
    /// The high half of the product of `rs1` as a signed number and `rs2` as an unsigned one.
    Mulhsu,
    /// The high half of the product of unsigned numbers.
    Mulhu,
    /// The signed quotient, toward zero.
    Div,
    /// The unsigned quotient.
    Divu,
    /// The signed remainder, with the sign of `rs1`.
    Rem,
    /// The unsigned remainder.
    Remu,
}

/// The rows of OP-32: the operation of the row of OP without the `w`, on the low 32 bits, its result extended by its
/// sign. A shift is by the low 5 bits of `rs2`, and a quotient by 0 is 2^64 - 1 here too.
#[derive(Copy, Clone, Debug)]
pub enum AluWordOp {
    /// The sum.
    Addw,
    /// `rs1` less `rs2`.
    Subw,
    /// The shift to the left.
    Sllw,
    /// The shift to the right that brings in zeros.
    Srlw,
    /// The shift to the right that brings in the sign.
    Sraw,
    /// The product.
    Mulw,
    /// The signed quotient, toward zero.
    Divw,
    /// The unsigned quotient.
    Divuw,
    /// The signed remainder, with the sign of `rs1`.
    Remw,
    /// The unsigned remainder.
    Remuw,
}

/// The rows of OP-IMM with a 12-bit immediate: the operation of the row of OP without the `i`, on `rs1` and the
/// immediate, extended by its sign (in `Sltiu` too).
#[derive(Copy, Clone, Debug)]
pub enum AluImmOp {
    /// The sum.
    Addi,
    /// 1 where `rs1` is less than the immediate as a signed number, else 0.
    Slti,
    /// 1 where `rs1` is less than the immediate as an unsigned number, else 0.
    Sltiu,
    /// The bits that exactly one has.
    Xori,
    /// The bits that at least one has.
    Ori,
    /// The bits that both have.
    Andi,
}

/// The rows of OP-IMM that shift by a 6-bit amount: to the left, to the right with zeros, to the right with the sign.
#[derive(Copy, Clone, Debug)]
pub enum ShiftOp {
    /// The shift to the left.
    Slli,
    /// The shift to the right that brings in zeros.
    Srli,
    /// The shift to the right that brings in the sign.
    Srai,
}

/// The rows of OP-IMM-32 that shift the low 32 bits by a 5-bit amount, in the order of `ShiftOp`; the result is
/// extended by its sign.
#[derive(Copy, Clone, Debug)]
pub enum ShiftWordOp {
    /// The shift to the left.
    Slliw,
    /// The shift to the right that brings in zeros.
    Srliw,
    /// The shift to the right that brings in the sign.
    Sraiw,
}

/// The rows of LOAD: 1, 2, 4 or 8 bytes (`b`, `h`, `w`, `d`), the lowest first. Fewer than 8 are extended by their
/// sign, or with `u` by zeros.
#[derive(Copy, Clone, Debug)]
pub enum LoadWidth {
    /// 1 byte, extended by its sign.
    Lb,
    /// 2 bytes, extended by their sign.
    Lh,
    /// 4 bytes, extended by their sign.
    Lw,
    /// 8 bytes.
    Ld,
    /// 1 byte, extended by zeros.
    Lbu,
    /// 2 bytes, extended by zeros.
    Lhu,
    /// 4 bytes, extended by zeros.
    Lwu,
}

/// The rows of STORE: the low 1, 2, 4 or 8 bytes (`b`, `h`, `w`, `d`), the lowest first.
#[derive(Copy, Clone, Debug)]
pub enum StoreWidth {
    /// 1 byte.
    Sb,
    /// 2 bytes.
    Sh,
    /// 4 bytes.
    Sw,
    /// 8 bytes.
    Sd,
}

/// The rows of BRANCH: equal, not equal, less, not less, and the last two on unsigned numbers (`u`).
#[derive(Copy, Clone, Debug)]
pub enum Condition {
    /// `rs1` is equal to `rs2`.
    Beq,
    /// `rs1` is not equal to `rs2`.
    Bne,
    /// `rs1` is less than `rs2`, as signed numbers.
    Blt,
    /// `rs1` is not less than `rs2`, as signed numbers.
    Bge,
    /// `rs1` is less than `rs2`, as unsigned numbers.
    Bltu,
    /// `rs1` is not less than `rs2`, as unsigned numbers.
    Bgeu,
}

/// An instruction. Registers are numbers from 0 to 31. An immediate is its bits as an unsigned
/// number; what the instruction does extends them by their sign.
#[derive(Copy, Clone, Debug)]
pub enum Instr {
    /// `imm`: the upper 20 bits of a 32-bit number, 0 to 2^20 - 1.
    Lui {
        /// The number of the register that is written (rd), 0 to 31.
        rd: u8,
        /// The upper 20 bits (imm) of the 32-bit number that is written, 0 to 2^20 - 1.
        imm: u32,
    },
    /// `imm` as in `Lui`.
    Auipc {
        /// The number of the register that is written (rd), 0 to 31.
        rd: u8,
        /// The upper 20 bits (imm) of what is added to the address of this instruction.
        imm: u32,
    },
    /// `offset`: bytes from this instruction, the 21 low bits of a signed number, even.
    Jal {
        /// The number of the register that gets the address of the next instruction (rd), 0 to 31.
        rd: u8,
        /// The byte offset of the target (imm), as the 21 low bits of a signed number, even.
        offset: u32,
    },
    /// `imm`: the 12 low bits of a signed number.
    Jalr {
        /// The number of the register that gets the address of the next instruction (rd), 0 to 31.
        rd: u8,
        /// The number of the register that has the base address (rs1), 0 to 31.
        rs1: u8,
        /// The byte offset from the base (imm), as the 12 low bits of a signed number, 0 to 4095.
        imm: u16,
    },
    /// `offset`: bytes from this instruction, the 13 low bits of a signed number, even.
    Branch {
        /// The condition under which it jumps (funct3).
        condition: Condition,
        /// The number of the register that is compared, on the left (rs1), 0 to 31.
        rs1: u8,
        /// The number of the register that is compared, on the right (rs2), 0 to 31.
        rs2: u8,
        /// The byte offset of the target (imm), as the 13 low bits of a signed number, even.
        offset: u16,
    },
    /// `imm`: the 12 low bits of a signed number.
    Load {
        /// How many bytes are loaded, and what extends them (funct3).
        width: LoadWidth,
        /// The number of the register that is written (rd), 0 to 31.
        rd: u8,
        /// The number of the register that has the base address (rs1), 0 to 31.
        rs1: u8,
        /// The byte offset from the base (imm), as the 12 low bits of a signed number, 0 to 4095.
        imm: u16,
    },
    /// `rs1` has the address, `rs2` what is stored. `imm`: the 12 low bits of a signed number.
    Store {
        /// How many bytes are stored (funct3).
        width: StoreWidth,
        /// The number of the register that has the base address (rs1), 0 to 31.
        rs1: u8,
        /// The number of the register whose low bytes are stored (rs2), 0 to 31.
        rs2: u8,
        /// The byte offset from the base (imm), as the 12 low bits of a signed number, 0 to 4095.
        imm: u16,
    },
    /// `imm`: the 12 low bits of a signed number.
    OpImm {
        /// The operation (funct3).
        op: AluImmOp,
        /// The number of the register that is written (rd), 0 to 31.
        rd: u8,
        /// The number of the register that is read (rs1), 0 to 31.
        rs1: u8,
        /// The second operand (imm), as the 12 low bits of a signed number, 0 to 4095.
        imm: u16,
    },
    /// `amount`: 0 to 63.
    Shift {
        /// The shift (the upper six bits of the word, and funct3).
        op: ShiftOp,
        /// The number of the register that is written (rd), 0 to 31.
        rd: u8,
        /// The number of the register that is shifted (rs1), 0 to 31.
        rs1: u8,
        /// By how many bits it is shifted (shamt), 0 to 63.
        amount: u8,
    },
    /// `rd` becomes the operation on `rs1` and `rs2`.
    Op {
        /// The operation (funct7 and funct3).
        op: AluOp,
        /// The number of the register that is written (rd), 0 to 31.
        rd: u8,
        /// The number of the register that is read first (rs1), 0 to 31.
        rs1: u8,
        /// The number of the register that is read second (rs2), 0 to 31.
        rs2: u8,
    },
    /// `imm`: the 12 low bits of a signed number.
    Addiw {
        /// The number of the register that is written (rd), 0 to 31.
        rd: u8,
        /// The number of the register whose low 32 bits are read (rs1), 0 to 31.
        rs1: u8,
        /// What is added (imm), as the 12 low bits of a signed number, 0 to 4095.
        imm: u16,
    },
    /// `amount`: 0 to 31.
    ShiftWord {
        /// The shift (funct7 and funct3).
        op: ShiftWordOp,
        /// The number of the register that is written (rd), 0 to 31.
        rd: u8,
        /// The number of the register whose low 32 bits are shifted (rs1), 0 to 31.
        rs1: u8,
        /// By how many bits they are shifted (shamt), 0 to 31.
        amount: u8,
    },
    /// `rd` becomes the operation on the low 32 bits of `rs1` and `rs2`.
    OpWord {
        /// The operation on 32 bits (funct7 and funct3).
        op: AluWordOp,
        /// The number of the register that is written (rd), 0 to 31.
        rd: u8,
        /// The number of the register that is read first (rs1), 0 to 31.
        rs1: u8,
        /// The number of the register that is read second (rs2), 0 to 31.
        rs2: u8,
    },
    /// Asks for a service of the runtime.
    Ecall,
}
