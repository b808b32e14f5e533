//! Flow graphs: numbered places with the numbers that each reads and writes, and which numbers are
//! live at each place.
#![tactic(auto)]

mod flow;
mod lists;
mod liveness;
mod reach;
mod rows;
mod spread;
mod sweep;

pub use flow::{Flow, Place, bare_place};
pub use lists::{one_place, two_places};
pub use liveness::{empty_rows, live, live_in_any_order};
pub use reach::reaching;
pub use rows::Rows;
pub use sweep::{add_rows, put_in, take_out};
