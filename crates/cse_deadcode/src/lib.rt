//! Three passes that take out what is computed for nothing.
//!
//! Common subexpression elimination (OCaml's `asmcomp/CSEgen.ml`): an integer operator that repeats an
//! earlier one of its straight run, whose operands and result still hold what they held then, becomes a
//! move. It is kept, for each operator on its operands, for each register written, for its origin and for
//! its place, in which instruction that was done last; what is still held is seen by comparing these times.
//!
//! Copy propagation: an operand that a move of its straight run made a copy of another register is
//! read from that one, by the same times. OCaml's `CSEgen` gives a move's target the number of the
//! value that its source has, and so sees through moves to the same end.
//!
//! Dead code elimination (OCaml's `asmcomp/deadcode.ml`): the function without the instructions that
//! only compute, and whose results nothing uses.
//! A register is used where some walk reads it before it writes it; what may go counts as a read only
//! where its own result is used. So one table says all that goes, and nothing is left to go after it.
#![tactic(auto)]

mod copies;
mod dropping;
mod events;
mod repeats;
mod times;
mod uses;
mod visits;

pub use copies::propagate;
pub use dropping::drop_dead;
pub use repeats::cse;
pub use uses::used;
