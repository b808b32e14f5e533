//! The faults that the program reports, and the line that it writes for each.
#![tactic(auto)]

mod build;
mod fault;
mod image;
mod large;
mod order;
mod usage;

pub use build::BuildError;
pub use fault::{Fault, FrontError, fault_text};
pub use image::{ImageFault, ImageRefusal, image_text};
pub use large::{Large, Section, large_text};
pub use order::{noted, noted_if, noted_optional};
pub use usage::{Usage, usage_text};
