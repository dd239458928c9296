//! Which files are scanned for classes, and which names they give, by Composer's documentation ("autoload",
//! "exclude-from-classmap"; "Optimize the autoloader").
#![tactic(auto)]

mod counted;
mod entry;
mod fault;
mod job;
mod jobs;
mod laws;
mod matching;
mod pattern;
mod pattern_text;
mod search;
mod walking;

pub use fault::WalkFault;
pub use job::{Scanned, WalkJob, WalkRule};
pub use jobs::walk;
pub use laws::{excluded_by_some_cutting, scans_never_vanish};
pub use pattern::{Pattern, PatternPart};

#[cfg(test)]
mod tests;
