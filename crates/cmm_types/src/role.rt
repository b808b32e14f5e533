//! What a node does with a part of it.

/// What a node does with the value of a part, as far as types are concerned.
#[derive(Clone, Copy)]
pub enum Role {
    /// The part need not have a value.
    Visited,
    /// The value is taken, so that there must be one.
    Taken,
    /// The value is taken by an external call, to which no address is passed.
    Outer,
}
