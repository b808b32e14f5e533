//! What hears of each function as it is compiled.

/// Hears when the compile of a function begins and when it ends, in the thread that compiles it. A function is known by
/// its number among those of the file, from 0.
///
/// A Gate changes nothing that the compiler sees.
/// Crates above hand it on, so that what is above them does not name this crate. That it is informed no
/// clause says; a row does.
pub trait Gate {
    /// The compile of this function begins when this returns.
    fn enter(&self, piece: u32);

    /// The compile of this function has ended, also where memory ran out.
    fn leave(&self, piece: u32);
}

/// A gate that does nothing, which the program uses.
#[derive(Clone, Copy)]
pub struct OpenGate;

impl Gate for OpenGate {
    fn enter(&self, _piece: u32) {}

    fn leave(&self, _piece: u32) {}
}
