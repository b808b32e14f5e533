//! The trees of Cmm texts.
#![tactic(auto)]

pub mod expr;
pub mod file;

pub use expr::{Binding, Case, CaseIndex, Declared, Expr, Form, Handler, Label};
pub use file::{DataItem, DataList, Datum, File, Function, Item, Param};
