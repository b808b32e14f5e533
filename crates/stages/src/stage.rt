//! The stages.

/// A stage of the compiler, in the order in which a file goes through them (OCaml's `asmcomp/asmgen.ml`).
#[derive(Clone, Copy, Drop)]
pub enum Stage {
    /// Each function as it is selected.
    Select,
    /// With its allocations combined.
    CombAlloc,
    /// With moves for what is computed again.
    Cse,
    /// Without what only computes and is not used.
    Dead,
    /// With slots for what lives over calls.
    Spill,
    /// With a number of its own for each web of writes.
    Split,
    /// With a place for each register.
    Alloc,
    /// As lines.
    Linear,
    /// The frame descriptors of the image.
    Frames,
    /// The words of the image.
    Code,
}
