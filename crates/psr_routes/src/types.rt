//! Placed packages.

use manifest_read::Package;
use path_name::Path;

/// A package of a project, with the folder in which it stands.
#[derive(Debug, PartialEq, Eq, Drop)]
pub struct Placed {
    /// The package.
    pub package: Package,
    /// The folder in which its files are read.
    pub at: Path,
    /// The folder that tables name.
    pub shown: Path,
    /// Whether `at` is the folder that the package is copied from, seen as the copy will be.
    pub mirrored: bool,
}
