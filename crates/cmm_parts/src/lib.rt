//! The parts of forms that hold no expression, and the expressions of one token, from the tokens
//! of a text.
#![tactic(auto)]

mod front;
mod leaf;
mod parts;
mod words;

pub use front::{Test, call_result, component, head, name_of, passes, symbol_of, token, word};
pub use leaf::simple;
pub use parts::{
    LabelHead, begins_label, case_number, chunk, inner_label, more_numbers, opened_label,
    parameters, symbol,
};
pub use words::{data_keyword, is_and, is_case, is_open};
