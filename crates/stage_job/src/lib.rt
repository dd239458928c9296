//! What an install is going to put into a project, made whole beside it: a job of parts, each staged below
//! `.install/new` before anything of the project is moved.
#![tactic(auto)]

mod above;
mod fault;
mod job;
mod laws;
mod mirror;
mod part;
mod putting;
mod whole;

pub use fault::StageFault;
pub use job::{Inner, Job, Leaf, Part, Source};
pub use laws::{
    checks_never_vanish, counted_files_are_mirrored, parts_commute, staged_parts_are_new,
};
pub use mirror::{copied_names, refuse_deep};
pub use putting::list_names;
pub use whole::stage;

#[cfg(test)]
mod tests;
