//! Linear functions made tidy: lines that no walk reaches are left out, and jumps to where control
//! comes anyway, and moves of a location to itself that nothing reads; jumps go at once where others
//! lead, and the test of a loop is repeated at its end. OCaml does some of this as it linearises
//! (`asmcomp/linearize.ml`: `get_label`, `local_exit`, and code after a jump is dropped).
//!
//! A line that goes may leave others without use, so the search for such lines (`lin_unused`) is
//! repeated until no line goes.
#![tactic(auto)]

mod redirecting;
mod room;
mod tidying;
mod turning;

pub use room::has_room;
pub use tidying::tidy;
