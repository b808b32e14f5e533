//! The texts of an image: its frame descriptors, and the words of its code, a line for each.
//!
//! They are what OCaml's frame tables and the code say, spelled for a reader: numbers of the machine are in
//! eight hexadecimal digits, sizes and offsets are decimal, and registers have their names.
#![tactic(auto)]

mod code;
mod digits;
mod frames;

pub use code::code_text;
pub use frames::frames_text;
