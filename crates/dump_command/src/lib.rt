//! The command `dump-autoload`: the autoload tables of a project are written anew, from its composer.json and from what is
//! installed.
#![tactic(auto)]

mod dumping;
mod laws;
mod standing;

pub use dumping::dump_autoload;
pub use laws::{dumped_class_maps, dumped_projects, dumped_tables};

#[cfg(test)]
mod tests;
