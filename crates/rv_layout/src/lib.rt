//! Layout: the words of pieces of code, whose targets are still named.
//!
//! A branch is kept as it is, or put over a jal, or over auipc and jalr; a jump is a jal, or auipc and jalr. Of
//! the forms in which each label of a function is reached the least are taken. They are found by
//! rounds over the function, each of which makes longer what does not reach: one more round than there
//! are rounds in which something grows, which are few, since a form that is made longer moves others
//! past their reach only where they are at its very edge.
#![tactic(auto)]

mod descs;
mod forms;
mod instructions;
mod labels;
mod sizes;
mod words;

pub use descs::put_descs;
pub use forms::{forms_of, words_of};
pub use instructions::put_piece;
pub use labels::{LabelOffsets, label_bound};
pub use sizes::{Sizes, too_large};
pub use words::{Placed, put_words};
