//! Laws of Mach functions that every pass over them uses.
//!
//! A step is reads, then an operation on values, then writes, then where control goes. So a pass
//! that puts straight code round an instruction speaks of registers alone, and one relation between
//! the states of two functions gives that the second does what the first does. The flow graph of a
//! function has exactly the walks of its definition.
//!
//! The crate holds definitions and laws alone.
#![tactic(auto)]
