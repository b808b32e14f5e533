//! Images: compiled programs as tables, and the fields of which their bytes are made.
//!
//! An image holds seven tables: functions, code, data, symbols of the data, root cells of the data,
//! external calls, and descriptors of the frames at return addresses. It has one spelling in bytes,
//! with numbers little-endian, which `image_bytes` reads and writes.
#![tactic(auto)]

mod fault;
pub mod fields;
mod image;
pub mod limits;
mod seen;

pub use fault::{BadField, ImageError, Stop};
pub use image::{DescRow, ExtRow, FuncRow, Image, SymRow};
pub use seen::Seen;
