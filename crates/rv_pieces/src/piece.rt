//! Pieces of code.

use bs_words::Name;
use lin_ir::{Descr, External, Label, Seq};
use rv_isa::{Condition, Instr, Register};

/// An instruction, some instructions whose target is named, or a mark.
///
/// How far a branch, jump or call reaches, and so how many words it takes, is found when the code is
/// laid out.
#[derive(Drop)]
pub enum Piece {
    /// An instruction whose numbers are all known.
    Known(Instr),
    /// The place of a label. It takes no words.
    Label(Label),
    /// To the label where the condition holds of the two registers, else on.
    Branch {
        /// What has to hold of the two registers.
        condition: Condition,
        /// The first register, `rs1` of the condition.
        left: Register,
        /// The second register, `rs2` of the condition.
        right: Register,
        /// The label to which control goes where the condition holds.
        label: Label,
    },
    /// To the label.
    Jump(Label),
    /// To the label, as one row of a table of jumps: two words, however far it is.
    Row(Label),
    /// The address of the label's place becomes the register's value. Two words.
    LabelAddress {
        /// The register that gets the address.
        to: Register,
        /// The label whose place it is.
        label: Label,
    },
    /// Calls the function of this name: `ra` becomes the address after the two words.
    Call(Name),
    /// Goes to the function of this name, and leaves `ra` as it is. Two words, and t1 is lost.
    TailCall(Name),
    /// The value of the symbol becomes the register's value: the address of its data or of the
    /// function. Two words.
    SymbolAddress {
        /// The register that gets the value.
        to: Register,
        /// The symbol.
        name: Name,
    },
    /// The number of the external call's row in the image becomes the register's value. Two words.
    ExternalNumber {
        /// The register that gets the number.
        to: Register,
        /// The external call whose row it is.
        row: External,
    },
    /// The place is a return address, and this is its descriptor. It takes no words.
    Descriptor(Descr),
}

/// The code of one function, from its entry on, and the bytes of its frame.
#[derive(Drop)]
pub struct Pieces {
    /// A multiple of 16.
    pub frame: u32,
    /// The pieces, from the entry on.
    pub code: Seq<Piece>,
}
