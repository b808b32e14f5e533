//! Expressions one after the other, and the forms that compute with them: assignments, calls,
//! blocks, loads, stores, raises and operators.
//!
//! `depth` is how many parentheses may still open, one in the other. `forms` reads a form after its
//! parenthesis, from the tokens there, the depth that is left inside it, and its place in bytes. So
//! each function here is proved alone, and only the reader of all forms calls itself.
//!
//! An operand is boxed as soon as it is read, as the tree holds it: where reading stops after it,
//! what is dropped is one box.
//!
//! As one cycle these functions and those of `cmm_exprs`, 44 then, were not through the prover in half an
//! hour; apart each takes seconds.
#![tactic(auto)]

mod lists;
mod operations;

pub use lists::{
    body_to_close, body_to_with, expression, list, operand, operands, sequence_to_close,
};
pub use operations::{
    alloc_form, app_form, assign_form, extcall_form, float_form, load_form, pair_form, raise_form,
    seq_form, store_form, triple_form,
};
