//! Where static data lies, and how much there may be of it.

/// The address of the first byte of static data.
pub const DATA_START: u64 = 0x1000_0000;

/// The most bytes of static data, those of the built-in list counted.
pub const DATA_LIMIT: u64 = 16_777_216;

/// The symbol of the built-in list, which a failed test of an index raises.
pub const BOUND_ERROR: &[u8] = b"caml_bound_error";
