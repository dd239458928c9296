//! The changes that calls of a device make.

ghost use Rattle.std.specs.Prelude.{◌≡◌, IfOk};

use crate::shared::SharedText;
use path_name::Path;
use std::alloc::{AllocError, Global};

/// A change of a tree, as one call of a device makes it.
#[derive(Debug, Drop)]
pub enum Change {
    /// The file at a path holds these bytes.
    Written(Path, SharedText),
    /// A folder was made at a path.
    FolderMade(Path),
    /// What stood at and below the first path stands at and below the second.
    Renamed(Path, Path),
    /// The file or other entry at a path was taken away.
    FileRemoved(Path),
    /// The empty folder at a path was taken away.
    FolderRemoved(Path),
}

impl Change {
    /// An equal change, which shares its bytes. Its one refusal is want of memory.
    pub fn share(&self, alloc: Global) -> Result<Change, AllocError>
        ensures { IfOk result (λ change. change ≡ self.now) }
    {
        match self {
            Change::Written(at, bytes) => Ok(Change::Written(at.copy(alloc)?, bytes.share()?)),
            Change::FolderMade(at) => Ok(Change::FolderMade(at.copy(alloc)?)),
            Change::Renamed(from, to) => Ok(Change::Renamed(from.copy(alloc)?, to.copy(alloc)?)),
            Change::FileRemoved(at) => Ok(Change::FileRemoved(at.copy(alloc)?)),
            Change::FolderRemoved(at) => Ok(Change::FolderRemoved(at.copy(alloc)?)),
        }
    }
}
