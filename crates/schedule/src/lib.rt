//! List scheduling of straight runs: the lines of a Linear function in the order `scheduled` of
//! `schedule_rules` (OCaml's `asmcomp/schedgen.ml`).
//!
//! A line is higher than all that depend on it. So of the lines that are left the highest depends on
//! none before it, and the order is that of falling heights: no line is asked what it waits for. The
//! heights come from tables of what later lines read and write, and the time is that of a sort.
#![tactic(auto)]

mod heights;
mod order;
mod plain;
mod runs;

pub use runs::schedule;
