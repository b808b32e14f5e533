//! What selection makes of a function of a text, as one definition, and the law that it does what the text does.
//!
//! The crate holds definitions and laws alone.
#![tactic(auto)]
