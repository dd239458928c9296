//! The start of the program `composer`, over any two outputs.
#![tactic(auto)]

mod starting;

pub use starting::start;
