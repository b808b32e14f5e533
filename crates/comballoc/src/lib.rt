//! Combined allocation: the allocations of each straight run become one, as far as one reservation
//! holds them (OCaml's `asmcomp/comballoc.ml`).
#![tactic(auto)]

mod combining;

pub use combining::combine;
