//! What holds of the Mach functions that selection makes: the machine that loses addrs at frame points does what the
//! text does, and the code is formed, seated and nested where the front accepts the function.
//!
//! The crate holds laws alone.
#![tactic(auto)]
