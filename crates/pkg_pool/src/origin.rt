//! Where the packages of a repository come from.

use path_name::Path;

/// A repository as it is seen from its project.
#[derive(Drop)]
pub struct Origin {
    /// The project's folder.
    pub project: Path,
    /// The folder in which the url begins: the project's, or one above it.
    pub start: Path,
    /// How many folders above the project's it is.
    pub up: u64,
    /// The repository's number, from 0.
    pub number: u32,
}
