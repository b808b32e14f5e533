//! A word as its six fields. Each format of the manual cuts a word at the same places, so that its
//! immediates are arithmetic on these fields.

ghost use Rattle.std.specs.Prelude.{◌≡◌, ◌+◌, ◌*◌, ◌/◌, ◌%◌};

/// The fields of a word, from its lowest bit: 7, 5, 3, 5, 5 and 7 bits.
#[derive(Copy, Clone)]
pub struct Fields {
    /// The lowest 7 bits: which group of rows the instruction is of.
    pub opcode: u8,
    /// The number of the register that is written; in a store or a branch, bits of the immediate.
    pub rd: u8,
    /// The row of its group, or a part of what says it; in `Lui`, `Auipc` and `Jal`, bits of the
    /// immediate.
    pub funct3: u8,
    /// The number of the first register that is read; in `Lui`, `Auipc` and `Jal`, bits of the
    /// immediate.
    pub rs1: u8,
    /// The number of the second register that is read; without one, bits of the immediate, or of
    /// the amount.
    pub rs2: u8,
    /// A part of what says the row, or bits of the immediate.
    pub funct7: u8,
}

impl Fields {
    ghost use Rattle.rv_isa.specs.Word.{FieldsFit, word_of_fields, split};

    /// The fields of `word`.
    pub fn split(word: u32) -> Fields
        ensures exact { result ≡ split word }
        ensures fit { FieldsFit result }
    {
        Fields {
            opcode: (word % 128) as u8,
            rd: (word / 128 % 32) as u8,
            funct3: (word / 4096 % 8) as u8,
            rs1: (word / 32768 % 32) as u8,
            rs2: (word / 1048576 % 32) as u8,
            funct7: (word / 33554432) as u8,
        }
    }

    /// The word with these fields.
    pub fn join(self) -> u32
        requires { FieldsFit self }
        ensures { result ≡ word_of_fields self }
    {
        self.opcode as u32
            + 128
                * (self.rd as u32
                    + 32 * (self.funct3 as u32
                        + 8 * (self.rs1 as u32 + 32 * (self.rs2 as u32 + 32 * self.funct7 as u32))))
    }
}
