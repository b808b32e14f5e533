//! The reader of expressions: bindings, control, handlers, and all forms inside forms.
//!
//! `forms` and `depth` are as in `cmm_operations`: `forms` reads a form one level deeper. Only
//! `form_at`, which hands itself on as `forms`, calls itself.
#![tactic(auto)]

mod bindings;
mod cases;
mod forms;
mod handlers;

pub use forms::function_body;
