//! The tables of an image.

use bs_words::{Comp, List, Name, Ret};

/// A compiled program.
#[derive(Drop)]
pub struct Image {
    /// How wide the fields of its descriptors are when it is written: 16 bits in version 1, and 32 in
    /// version 2. No run depends on it.
    pub version: u32,
    /// The functions, in the order of their code.
    pub funcs: List<FuncRow>,
    /// The words of the code region.
    pub code: List<u32>,
    /// The bytes of the data.
    pub bytes: List<u8>,
    /// The symbols of the data, in the order of their places.
    pub syms: List<SymRow>,
    /// The offsets into the data of the cells that hold OCaml values.
    pub roots: List<u32>,
    /// The external calls, by their numbers.
    pub extcs: List<ExtRow>,
    /// The frame descriptors, in the order of their return addresses.
    pub descs: List<DescRow>,
}

/// A function.
#[derive(Drop)]
pub struct FuncRow {
    /// Its symbol.
    pub name: Name,
    /// The bytes of code before the first word of the function.
    pub offset: u32,
    /// The number of words of its code.
    pub words: u32,
    /// The bytes of its frame on the stack.
    pub frame: u32,
    /// The components of its parameters, in order: at most 16.
    pub params: List<Comp>,
    /// What it gives.
    pub result: Ret,
}

/// A symbol of the data.
#[derive(Drop)]
pub struct SymRow {
    /// The name by which the text defines it.
    pub name: Name,
    /// The bytes of data before its place.
    pub offset: u32,
}

/// An external call.
#[derive(Drop)]
pub struct ExtRow {
    /// The name of what is called outside the program.
    pub name: Name,
    /// The components of its arguments, in order: at most 16.
    pub params: List<Comp>,
    /// What it gives.
    pub result: Ret,
}

/// Which places of a frame hold OCaml values at a return address.
#[derive(Drop)]
pub struct DescRow {
    /// The bytes of code before the return address.
    pub after: u32,
    /// The bytes of the frame.
    pub size: u32,
    /// A register `r` as `2 * r + 1`, and a place of the frame as its offset from the stack pointer.
    pub entries: List<u32>,
}
