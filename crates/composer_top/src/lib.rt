//! The commands of the program, over any tree and any two sinks. `run` goes from the words of a command to its status;
//! each command has a module of its own.
#![tactic(auto)]

mod check;
mod chosen;
mod files;
mod laws;
mod lookup;
mod report;
mod runner;
mod standing_tables;

pub use laws::{
    crashed_runs_are_recovered, dumped_class_maps_are_looked_up, dumped_projects_look_up,
    installed_class_maps_are_looked_up, installed_projects_look_up, installs_write_few_files,
    lookups_read_standing_tables, runs_are_complete, words_first,
};
pub use report::{Report, refuse};
pub use run_answers::Refusal;
pub use runner::run;

#[cfg(test)]
mod tests;
