//! What an install is going to commit.

use path_name::Text;
use stage_job::Job;

/// What an install is going to commit, and what it then says.
#[derive(Debug, PartialEq, Eq, Drop)]
pub struct Work {
    /// What is to stand in the project. A job without parts changes nothing.
    pub job: Job,
    /// The generation of the tables that it writes, 1 or more.
    pub generation: u64,
    /// The lines that it ends with, each with its LF.
    pub lines: Text,
}
