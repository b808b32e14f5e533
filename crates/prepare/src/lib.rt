//! The code of the passes over Mach between selection and register allocation, in their order.
#![tactic(auto)]

mod passes;

pub use passes::passed_to;
