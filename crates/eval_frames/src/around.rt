//! What is round a run.
use crate::layout::Layout;
use cmm_data::SymbolTable;
use cmm_tree::{File, Function};
use std::alloc::Global;

/// What is round a run.
#[derive(Drop)]
pub struct Surroundings<'a> {
    /// Where memory comes from.
    pub alloc: Global,
    /// The file whose function is run.
    pub file: &'a File,
    /// The first address past the data.
    pub end: u64,
    /// The symbols of the file, and what they stand for.
    pub symbols: SymbolTable<'a>,
    /// The functions of the file, in order.
    pub functions: Vec<&'a Function>,
    /// The frames and addresses of the functions.
    pub layout: &'a Layout,
}
