//! What every image has, and how long its sections may be.

/// The words with which the code of each compiled image begins: the return service, and then the uncaught
/// raise.
pub const STUB: [u32; 4] = [0x0000_0393, 0x0000_0073, 0x0010_0393, 0x0000_0073];

/// The words of the stub.
pub const STUB_WORDS: u64 = 4;

/// The bytes of code before the first place that a call can return to: those of the stub, and a word.
pub const FIRST_RETURN: u64 = 4 * STUB_WORDS + 4;

/// The most bytes of the body of a table.
pub const TABLE_LIMIT: u64 = 67_108_864;

/// The most bytes of code.
pub const CODE_LIMIT: u64 = 268_369_920;
