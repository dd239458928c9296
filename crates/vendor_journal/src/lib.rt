//! The journal at work: the claim on a project, the commit of an install, and its end.
#![tactic(auto)]

mod commit_fault;
mod commits;
mod hold;
mod hold_fault;
mod install_laws;
mod job_journal;
mod prepared;

pub use commit_fault::CommitFault;
pub use commits::commit;
pub use hold::{Hold, claim, release};
pub use hold_fault::ClaimFault;
pub use install_laws::{
    claimed_projects_can_be_staged, committed_installs_stay, refused_installs_leave_the_project,
    staged_jobs_are_ready,
};
pub use job_journal::{journal_of, moved_targets_make_the_job, staged_jobs_have_targets};
pub use prepared::{Prepared, PreparedPart, prepare};

#[cfg(test)]
mod tests;
