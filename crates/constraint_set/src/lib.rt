//! Constraints on versions: reading, which versions satisfy them, which of them meet, and the stability that they
//! give their package, by the rules of Composer's documentation ("Versions and constraints") and of its library
//! composer/semver.
#![tactic(auto)]

mod constraint;
mod fault;
mod laws;
mod overlap;
mod part;
mod reading;
mod satisfies;
mod words;

pub use constraint::{Comparison, Constraint, Flag, Operator};
pub use fault::ConstraintFault;
pub use laws::{common_points, constraint_texts, fault_places, meeting};
pub use reading::read;

#[cfg(test)]
mod tests;
#[cfg(test)]
mod vectors;
