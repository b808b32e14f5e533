//! Frames.

/// The frame of a function.
#[derive(Clone, Copy)]
pub struct FrameForm {
    /// Its bytes.
    pub bytes: u32,
    /// Whether its highest 8 bytes hold the return address.
    pub saves: bool,
}
