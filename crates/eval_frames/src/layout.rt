//! What a run takes from the image.
ghost use Rattle.std.specs.Prelude.{◌≡◌, slice_index};
ghost use Rattle.bs_words.specs.Contents.{contents};

use bs_words::List;

/// For each function of the file, in order: the bytes of its frame, and its address.
#[derive(Drop)]
pub struct Layout {
    /// Bytes of the stack that one activation takes.
    pub frames: List<u32>,
    /// The address that a function as a value is observed as.
    pub addresses: List<u64>,
}

impl Layout {
    /// The bytes of the frame of a function, or 0 where the layout has none.
    pub fn frame_of(&self, function: u32) -> u64
        ensures { result ≡ slice_index (contents self.now.frames) function }
    {
        match self.frames.as_slice().get(function as usize) {
            Some(bytes) => u64::from(*bytes),
            None => 0,
        }
    }

    /// The address of a function, or 0 where the layout has none.
    pub fn address_of(&self, function: u32) -> u64
        ensures { result ≡ slice_index (contents self.now.addresses) function }
    {
        self.addresses
            .as_slice()
            .get(function as usize)
            .copied()
            .unwrap_or(0)
    }
}
