//! The commands `install` and `update`: the packages of the lock that stands, or of a new plan, are copied into a project's
//! `vendor`, with the tables of their classes and the autoloader, and a new lock is written.
#![tactic(auto)]

mod installing;
mod job_steps;
mod laws;
mod lines;
mod wanted;

pub use installing::{install, update};
pub use laws::{
    claimed_projects_are_trees, commands_always_commit, commands_install_what_they_choose,
    commands_make_new_projects, installations_make_the_new_project, installations_write_few_files,
    installed_authoritative_tables, installed_locks_are_met, installed_optimised_tables,
    installed_packages_are_shown, installed_tables, installs_again_take_the_lock, new_locks_stand,
};

#[cfg(test)]
mod tests;
