//! The packages of a lock that are to be installed: whether they are a valid plan together, the folders that they are copied from
//! and to, and the lines that name them.
#![tactic(auto)]

mod folders;
mod lines;
mod sources;
mod verdicts;

pub use folders::package_folder;
pub use lines::put_packages;
pub use sources::members;
pub use verdicts::{broken_rule_of, refuse_unmet, verdict_of};

#[cfg(test)]
mod tests;
