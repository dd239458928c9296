//! What is to be installed.

use lock_file::Lock;
use manifest_read::Manifest;
use path_name::Text;

/// The packages that are to be installed.
#[derive(Debug, PartialEq, Eq, Drop)]
pub struct Chosen {
    /// The root that requires them.
    pub root: Manifest,
    /// Their lock.
    pub lock: Lock,
    /// The text of the lock, where it is a new one, which is to be written.
    pub text: Option<Text>,
}
