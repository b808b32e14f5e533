//! The expressions of forms from their parts, and where reading stops.
#![tactic(auto)]

mod build;
pub mod node;
mod stop;

pub use build::{
    PlacedChunk, alloc_node, app_node, assign_node, bare_catch, catch_node, exit_node,
    extcall_node, float_node, let_node, loaded, raise_node, stored, switch_node, try_node,
};
pub use node::{exit_to, float_leaf, paired, sequence, sequence_at, tripled, while_loop};
pub use stop::{Stop, UnexpectedToken};
