//! The names that a PHP file declares.
#![tactic(auto)]

mod ahead;
mod last_word;
mod names;
mod word;

pub use names::{declared, declared_plainly, laws};

#[cfg(test)]
mod real;
#[cfg(test)]
mod tests;
