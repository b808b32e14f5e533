//! The fixed bits of each row of the table, both ways: as the manual's chapter "RV32/64G Instruction
//! Set Listings" has them.

ghost use Rattle.std.specs.Prelude.{◌≡◌};
ghost use Rattle.rv_isa.specs.Rows.{alu_bits, alu_rows, alu_word_bits, alu_word_rows, alu_imm_bits, alu_imm_rows};
ghost use Rattle.rv_isa.specs.Rows.{shift_bits, shift_rows, shift_word_bits, shift_word_rows, load_bits, load_rows};
ghost use Rattle.rv_isa.specs.Rows.{store_bits, store_rows, condition_bits, condition_rows};
ghost use Rattle.rv_isa.specs.Decoding.{row_with, row_with2};

use crate::instr::{
    AluImmOp, AluOp, AluWordOp, Condition, LoadWidth, ShiftOp, ShiftWordOp, StoreWidth,
};

impl AluOp {
    /// The fixed bits of the row: funct7, and funct3.
    pub fn bits(self) -> (u8, u8)
        ensures { result ≡ alu_bits self }
    {
        match self {
            AluOp::Add => (0b0000000, 0b000),
            AluOp::Sub => (0b0100000, 0b000),
            AluOp::Sll => (0b0000000, 0b001),
            AluOp::Slt => (0b0000000, 0b010),
            AluOp::Sltu => (0b0000000, 0b011),
            AluOp::Xor => (0b0000000, 0b100),
            AluOp::Srl => (0b0000000, 0b101),
            AluOp::Sra => (0b0100000, 0b101),
            AluOp::Or => (0b0000000, 0b110),
            AluOp::And => (0b0000000, 0b111),
            AluOp::Mul => (0b0000001, 0b000),
            AluOp::Mulh => (0b0000001, 0b001),
            AluOp::Mulhsu => (0b0000001, 0b010),
            AluOp::Mulhu => (0b0000001, 0b011),
            AluOp::Div => (0b0000001, 0b100),
            AluOp::Divu => (0b0000001, 0b101),
            AluOp::Rem => (0b0000001, 0b110),
            AluOp::Remu => (0b0000001, 0b111),
        }
    }

    /// The row with these fixed bits.
    pub fn from_bits(funct7: u8, funct3: u8) -> Option<AluOp>
        ensures { result ≡ row_with2 alu_bits alu_rows funct7 funct3 }
    {
        match (funct7, funct3) {
            (0b0000000, 0b000) => Some(AluOp::Add),
            (0b0100000, 0b000) => Some(AluOp::Sub),
            (0b0000000, 0b001) => Some(AluOp::Sll),
            (0b0000000, 0b010) => Some(AluOp::Slt),
            (0b0000000, 0b011) => Some(AluOp::Sltu),
            (0b0000000, 0b100) => Some(AluOp::Xor),
            (0b0000000, 0b101) => Some(AluOp::Srl),
            (0b0100000, 0b101) => Some(AluOp::Sra),
            (0b0000000, 0b110) => Some(AluOp::Or),
            (0b0000000, 0b111) => Some(AluOp::And),
            (0b0000001, 0b000) => Some(AluOp::Mul),
            (0b0000001, 0b001) => Some(AluOp::Mulh),
            (0b0000001, 0b010) => Some(AluOp::Mulhsu),
            (0b0000001, 0b011) => Some(AluOp::Mulhu),
            (0b0000001, 0b100) => Some(AluOp::Div),
            (0b0000001, 0b101) => Some(AluOp::Divu),
            (0b0000001, 0b110) => Some(AluOp::Rem),
            (0b0000001, 0b111) => Some(AluOp::Remu),
            _ => None,
        }
    }
}

impl AluWordOp {
    /// The fixed bits of the row: funct7, and funct3.
    pub fn bits(self) -> (u8, u8)
        ensures { result ≡ alu_word_bits self }
    {
        match self {
            AluWordOp::Addw => (0b0000000, 0b000),
            AluWordOp::Subw => (0b0100000, 0b000),
            AluWordOp::Sllw => (0b0000000, 0b001),
            AluWordOp::Srlw => (0b0000000, 0b101),
            AluWordOp::Sraw => (0b0100000, 0b101),
            AluWordOp::Mulw => (0b0000001, 0b000),
            AluWordOp::Divw => (0b0000001, 0b100),
            AluWordOp::Divuw => (0b0000001, 0b101),
            AluWordOp::Remw => (0b0000001, 0b110),
            AluWordOp::Remuw => (0b0000001, 0b111),
        }
    }

    /// The row with these fixed bits.
    pub fn from_bits(funct7: u8, funct3: u8) -> Option<AluWordOp>
        ensures { result ≡ row_with2 alu_word_bits alu_word_rows funct7 funct3 }
    {
        match (funct7, funct3) {
            (0b0000000, 0b000) => Some(AluWordOp::Addw),
            (0b0100000, 0b000) => Some(AluWordOp::Subw),
            (0b0000000, 0b001) => Some(AluWordOp::Sllw),
            (0b0000000, 0b101) => Some(AluWordOp::Srlw),
            (0b0100000, 0b101) => Some(AluWordOp::Sraw),
            (0b0000001, 0b000) => Some(AluWordOp::Mulw),
            (0b0000001, 0b100) => Some(AluWordOp::Divw),
            (0b0000001, 0b101) => Some(AluWordOp::Divuw),
            (0b0000001, 0b110) => Some(AluWordOp::Remw),
            (0b0000001, 0b111) => Some(AluWordOp::Remuw),
            _ => None,
        }
    }
}

impl AluImmOp {
    /// The row's funct3.
    pub fn bits(self) -> u8
        ensures { result ≡ alu_imm_bits self }
    {
        match self {
            AluImmOp::Addi => 0b000,
            AluImmOp::Slti => 0b010,
            AluImmOp::Sltiu => 0b011,
            AluImmOp::Xori => 0b100,
            AluImmOp::Ori => 0b110,
            AluImmOp::Andi => 0b111,
        }
    }

    /// The row with this funct3.
    pub fn from_bits(funct3: u8) -> Option<AluImmOp>
        ensures { result ≡ row_with alu_imm_bits alu_imm_rows funct3 }
    {
        match funct3 {
            0b000 => Some(AluImmOp::Addi),
            0b010 => Some(AluImmOp::Slti),
            0b011 => Some(AluImmOp::Sltiu),
            0b100 => Some(AluImmOp::Xori),
            0b110 => Some(AluImmOp::Ori),
            0b111 => Some(AluImmOp::Andi),
            _ => None,
        }
    }
}

impl ShiftOp {
    /// The fixed bits of the row: the upper six bits of the word, and funct3.
    pub fn bits(self) -> (u8, u8)
        ensures { result ≡ shift_bits self }
    {
        match self {
            ShiftOp::Slli => (0b000000, 0b001),
            ShiftOp::Srli => (0b000000, 0b101),
            ShiftOp::Srai => (0b010000, 0b101),
        }
    }

    /// The row with these fixed bits.
    pub fn from_bits(funct6: u8, funct3: u8) -> Option<ShiftOp>
        ensures { result ≡ row_with2 shift_bits shift_rows funct6 funct3 }
    {
        match (funct6, funct3) {
            (0b000000, 0b001) => Some(ShiftOp::Slli),
            (0b000000, 0b101) => Some(ShiftOp::Srli),
            (0b010000, 0b101) => Some(ShiftOp::Srai),
            _ => None,
        }
    }
}

impl ShiftWordOp {
    /// The fixed bits of the row: funct7, and funct3.
    pub fn bits(self) -> (u8, u8)
        ensures { result ≡ shift_word_bits self }
    {
        match self {
            ShiftWordOp::Slliw => (0b0000000, 0b001),
            ShiftWordOp::Srliw => (0b0000000, 0b101),
            ShiftWordOp::Sraiw => (0b0100000, 0b101),
        }
    }

    /// The row with these fixed bits.
    pub fn from_bits(funct7: u8, funct3: u8) -> Option<ShiftWordOp>
        ensures { result ≡ row_with2 shift_word_bits shift_word_rows funct7 funct3 }
    {
        match (funct7, funct3) {
            (0b0000000, 0b001) => Some(ShiftWordOp::Slliw),
            (0b0000000, 0b101) => Some(ShiftWordOp::Srliw),
            (0b0100000, 0b101) => Some(ShiftWordOp::Sraiw),
            _ => None,
        }
    }
}

impl LoadWidth {
    /// The row's funct3.
    pub fn bits(self) -> u8
        ensures { result ≡ load_bits self }
    {
        match self {
            LoadWidth::Lb => 0b000,
            LoadWidth::Lh => 0b001,
            LoadWidth::Lw => 0b010,
            LoadWidth::Ld => 0b011,
            LoadWidth::Lbu => 0b100,
            LoadWidth::Lhu => 0b101,
            LoadWidth::Lwu => 0b110,
        }
    }

    /// The row with this funct3.
    pub fn from_bits(funct3: u8) -> Option<LoadWidth>
        ensures { result ≡ row_with load_bits load_rows funct3 }
    {
        match funct3 {
            0b000 => Some(LoadWidth::Lb),
            0b001 => Some(LoadWidth::Lh),
            0b010 => Some(LoadWidth::Lw),
            0b011 => Some(LoadWidth::Ld),
            0b100 => Some(LoadWidth::Lbu),
            0b101 => Some(LoadWidth::Lhu),
            0b110 => Some(LoadWidth::Lwu),
            _ => None,
        }
    }
}

impl StoreWidth {
    /// The row's funct3.
    pub fn bits(self) -> u8
        ensures { result ≡ store_bits self }
    {
        match self {
            StoreWidth::Sb => 0b000,
            StoreWidth::Sh => 0b001,
            StoreWidth::Sw => 0b010,
            StoreWidth::Sd => 0b011,
        }
    }

    /// The row with this funct3.
    pub fn from_bits(funct3: u8) -> Option<StoreWidth>
        ensures { result ≡ row_with store_bits store_rows funct3 }
    {
        match funct3 {
            0b000 => Some(StoreWidth::Sb),
            0b001 => Some(StoreWidth::Sh),
            0b010 => Some(StoreWidth::Sw),
            0b011 => Some(StoreWidth::Sd),
            _ => None,
        }
    }
}

impl Condition {
    /// The row's funct3.
    pub fn bits(self) -> u8
        ensures { result ≡ condition_bits self }
    {
        match self {
            Condition::Beq => 0b000,
            Condition::Bne => 0b001,
            Condition::Blt => 0b100,
            Condition::Bge => 0b101,
            Condition::Bltu => 0b110,
            Condition::Bgeu => 0b111,
        }
    }

    /// The row with this funct3.
    pub fn from_bits(funct3: u8) -> Option<Condition>
        ensures { result ≡ row_with condition_bits condition_rows funct3 }
    {
        match funct3 {
            0b000 => Some(Condition::Beq),
            0b001 => Some(Condition::Bne),
            0b100 => Some(Condition::Blt),
            0b101 => Some(Condition::Bge),
            0b110 => Some(Condition::Bltu),
            0b111 => Some(Condition::Bgeu),
            _ => None,
        }
    }
}
