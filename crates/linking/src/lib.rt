//! From what is said of one function and one list of its calls' doings to the whole run of an image.
//!
//! A program is functions that step. Each does by any list of its calls' doings what the function of the
//! text does alone, and a machine carries the program out step by step. Then the machine does what the
//! whole run of the text does, within the bound, and nothing else.
//!
//! The crate holds definitions and laws alone.
#![tactic(auto)]
