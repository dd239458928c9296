//! The plan of a pool: for each requirement in turn the preferred package with which a valid plan exists, found by a
//! search that goes back where none does.
#![tactic(auto)]

mod context;
mod members;
mod search;
mod solving;

pub use solving::{Answer, solve};

#[cfg(test)]
mod tests;
