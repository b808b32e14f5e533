//! The services of the machine that move every block of the heap.
//!
//! They are definitions of `rv_machine` (`specs/Allocation.antt` and `specs/FrameCalls.antt`). `serve_allocation` and
//! `serve_frame_call` give exactly those, in time linear in the bytes of the blocks and in the stack. It takes no memory: the machine has what is
//! needed.
#![tactic(auto)]

mod attempt;
mod choice;
mod claims;
mod forward;
mod moves;
pub mod plan;
mod roots;
pub mod service_end;
pub mod serving;
mod stack;
mod starts;
mod young;

pub use plan::Plan;
pub use service_end::ServiceEnd;
pub use serving::{serve_allocation, serve_frame_call};
