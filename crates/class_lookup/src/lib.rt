//! Which file a class opens, by the tables of a project: the class map first, then the paths that the rows of prefixes
//! give, in order (PSR-4; PSR-0; Composer's documentation, "autoload").
#![tactic(auto)]

mod fault;
mod groups;
mod names;
mod search;
mod tried;

pub use fault::LookupFault;
pub use names::class_name;
pub use search::{Found, find};
pub use tried::candidates;

#[cfg(test)]
mod tests;
