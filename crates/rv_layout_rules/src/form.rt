//! How a branch or a jump leads to its label.

/// How far what leads to a label reaches, the shortest form first.
///
/// A branch has all three. A jump has the first, a jal, and the last. What always takes the same
/// words is in the first.
#[derive(Copy, Clone, Debug)]
pub enum Form {
    /// One instruction, with the offset in its own field.
    Near,
    /// The inverted branch over a jal.
    Middle,
    /// By auipc and jalr through t1, which is lost; a branch is inverted and leads over both.
    Far,
}
