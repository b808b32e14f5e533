//! The image of a file, of the pieces of its functions.
//!
//! First the forms of all branches are found, and with them where each function begins
//! (`function_places`), and how large each section becomes. Only where every section keeps its limit are the words of code made, once each name
//! stands for an address.
#![tactic(auto)]

mod code;
mod data;
mod image;
mod names;
mod rows;
mod sizes;
mod source;

pub use image::assemble;
