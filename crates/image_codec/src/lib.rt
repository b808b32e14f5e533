//! An image to its bytes, and bytes to their image.
//!
//! `write_image` gives the one spelling of an image. `read_image` takes the bytes of an image back to it, and
//! reports the first fault of any others. The rules of images and their spelling are in `specs/Image` of
//! `image_form`, and how bytes are read in its `specs/Fields` and in `specs/Reading` here.
#![tactic(auto)]

mod reading;
mod rows;
mod writing;

pub use reading::read_image;
pub use writing::{comp_byte, ret_byte, write_image};
