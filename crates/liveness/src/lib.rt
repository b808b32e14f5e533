//! What is live in a Mach function (OCaml's `asmcomp/liveness.ml`): before each instruction, the
//! registers that some walk from there reads before it writes them.
//!
//! The function becomes a flow graph, whose places are those of its text, and liveness is solved over
//! it. A call, a frame call, a raise and a bound test lead to the innermost handler too, past their own
//! writes. What an operation destroys it writes.
#![tactic(auto)]

mod backward;
mod control;
mod edges;
mod flow;
mod labels;
mod live_map;
mod nodes;
pub mod numbers;
mod written;

pub use backward::Backward;
pub use control::pass_tries;
pub use edges::{Edges, edges_of};
pub use flow::flow_of;
pub use labels::InstructionLabels;
pub use live_map::{LiveFlow, live, live_flow};
pub use numbers::first_free;
pub use written::numbers_of;
