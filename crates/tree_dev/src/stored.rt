//! Entries as a tree in memory keeps them.

ghost use Rattle.std.specs.Prelude.{◌≡◌, IfOk};

use crate::Entry;
use crate::shared::SharedText;
use std::alloc::{AllocError, Global};

/// An entry whose bytes are kept once, here and in the record of changes.
#[derive(Debug, Drop)]
pub enum Stored {
    /// A file with its bytes.
    File(SharedText),
    /// A folder.
    Folder,
    /// Anything else.
    Other,
}

impl Stored {
    ghost use Rattle.tree_dev.specs.Stored.{entry_of};

    /// Takes an entry over. Its one refusal is want of memory.
    pub fn of(alloc: Global, entry: Entry) -> Result<Stored, AllocError>
        ensures { IfOk result (λ stored. entry_of stored ≡ entry) }
    {
        match entry {
            Entry::File(bytes) => Ok(Stored::File(SharedText::of(alloc, bytes)?)),
            Entry::Folder => Ok(Stored::Folder),
            Entry::Other => Ok(Stored::Other),
        }
    }

    /// Another owner of the same entry. Its one refusal is want of memory.
    pub fn share(&self) -> Result<Stored, AllocError>
        ensures { IfOk result (λ stored. stored ≡ self.now) }
    {
        match self {
            Stored::File(bytes) => Ok(Stored::File(bytes.share()?)),
            Stored::Folder => Ok(Stored::Folder),
            Stored::Other => Ok(Stored::Other),
        }
    }
}
