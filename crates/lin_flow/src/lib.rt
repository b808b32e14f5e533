//! Where walks of a Linear function come, and what is live there.
//!
//! A raise goes to the handler of the innermost trap that is pushed, which depends on the walk. So
//! walks are searched over positions: places of the text together with the traps that are pushed
//! there. Each position is a place of a flow graph over which liveness is solved.
#![tactic(auto)]

pub mod control;
pub mod labels;
pub mod lines;
pub mod live;
pub mod nodes;
pub mod search;
mod tries;
pub mod walks;

pub use labels::LineLabels;
pub use live::{LiveWalks, live_walks};
pub use nodes::spread;
pub use search::Search;
pub use walks::{Walks, search_walks};
