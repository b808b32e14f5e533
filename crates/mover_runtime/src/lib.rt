//! Runs of the machine under the mover, and the text of their outcomes.
#![tactic(auto)]

mod calling;
mod counting;
pub mod outcome;
pub mod run;
pub mod schedule;
pub mod serving;
pub mod text;

pub use alloc_service::ServiceEnd;
pub use outcome::RunEnd;
pub use run::run_image;
pub use schedule::Schedule;
pub use serving::service;
