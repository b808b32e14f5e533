//! Static data at its place.
use bs_words::{List, Name, Value};

/// A symbol of static data.
#[derive(Drop)]
pub struct DataSymbol {
    /// The symbol itself.
    pub name: Name,
    /// The address that it stands for.
    pub address: u32,
}

/// A list of static data: the address of its first byte, its bytes, and the values of its cells of 8 bytes.
/// Zeros fill up the last cell where the bytes are no multiple of 8.
#[derive(Drop)]
pub struct DataCells {
    /// The address of its first byte.
    pub start: u32,
    /// The number of its bytes.
    pub size: u32,
    /// The values of its cells, the lowest address first.
    pub cells: List<Value>,
}

/// The static data of a file at its place, the built-in list first.
#[derive(Drop)]
pub struct DataMap {
    /// In the order of their places.
    pub symbols: List<DataSymbol>,
    /// In the order of their addresses.
    pub lists: List<DataCells>,
    /// The addresses of the root cells, in order.
    pub roots: List<u32>,
    /// The bytes of the data, from its start to its end.
    pub bytes: u32,
}
