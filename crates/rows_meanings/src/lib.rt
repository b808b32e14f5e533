//! How functions of Mach and of Linear that are made by hand run, by a second reading of what these languages mean.
//!
//! The first row of the table is a Cmm text, in one line, whose functions are called and whose symbols are named. Then come
//! functions: `mach NAME PARAMETERS`, with `; COLOURS` where registers are at places that operations destroy, or
//! `lin NAME PARAMETERS`, an instruction a row, and a row for each run: `run ARGUMENTS`, then after bars what each call
//! does, as `gives 5` or `raises 7`. A frame point of Linear is followed by a row `names LOCATIONS`. What is shown of
//! each run, its calls, its end and its units, was written by hand from the rules.
#![tactic(auto)]

mod function;
mod meanings;
mod outcome;

pub use meanings::Meanings;
