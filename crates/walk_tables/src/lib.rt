//! What a walk of a function binds, uses and passes, as a table.
//!
//! A walk binds, uses and passes frame points (`specs/Walks.antt`): what is left to do at each point is a
//! list of tasks. The table of a function has a node for each such list, as cells that share what they have
//! in common. It agrees with the walks (`proofs/Agreeing.antt`), so the addresses that are live in the table
//! are those that are live on a walk (`specs/AddrLive.antt`).
#![tactic(auto)]

mod expressions;
mod items;
mod leaving;
mod node;
mod scopes;
mod steps;
mod table;
mod tasks;

pub use node::{Next, Node, Step};
pub use table::{Table, make_table};
