//! Folders seen from a project.

ghost use Rattle.std.specs.Prelude.{◌≡◌, IfOk, Ok};
ghost use Rattle.path_name.specs.Given.{Gives, GivesValue};
ghost use Rattle.path_name.specs.declared.fault.PathFault.TheVariants.{OutOfMemory};

use crate::{Path, PathFault, Text};
use std::alloc::{AllocError, Global};

/// A folder seen from a project: `up` times `..`, then the path. It may lie outside of the project.
#[derive(Debug, PartialEq, Eq, Drop)]
pub struct FolderRef {
    /// How many folders above the project the path begins.
    pub up: u64,
    /// The path from there.
    pub path: Path,
}

impl FolderRef {
    ghost use Rattle.path_name.specs.FolderRefs.{folder_of, folder_text, resolved};

    /// The folder that a text names. The text is cut and read as that of a `Path`, but each `..` with
    /// nothing before it leads up. `BadSegment(at)`: the part whose first byte stands at `at` is the
    /// first that is not UTF-8 or has a NUL. `AboveRoot` never comes.
    pub fn read(alloc: Global, text: &[u8]) -> Result<FolderRef, PathFault>
        ensures { GivesValue OutOfMemory (folder_of text.now) result }
    {
        let (up, path) = Path::read_folder(alloc, text)?;
        Ok(FolderRef { up, path })
    }

    /// The folder's path, seen from the root that the project's path begins at. `AboveRoot(0)` comes
    /// exactly where `up` passes the project's number of segments. `BadSegment` never comes.
    pub fn resolve(&self, alloc: Global, project: &Path) -> Result<Path, PathFault>
        ensures { GivesValue OutOfMemory (resolved self.now project.now) result }
    {
        match self.path.below_ancestor(alloc, project, self.up)? {
            None => Err(PathFault::AboveRoot(0)),
            Some(path) => Ok(path),
        }
    }

    /// The text: `../` as often as it leads up, then the path's text. It is read as this folder again.
    /// Its one refusal is want of memory.
    pub fn text(&self, alloc: Global) -> Result<Text, AllocError>
        ensures value { IfOk result (λ text. text ≡ folder_text self.now) }
        ensures read_again { IfOk result (λ text. folder_of text ≡ Ok self.now) }
    {
        let path = self.path.text();
        let above = self.up.saturating_mul(3) as usize;
        let mut text = Vec::with_capacity(alloc, above.saturating_add(path.len()))?;
        for _ in 0..self.up {
            text.extend_from_slice(b"../")?;
        }
        text.extend_from_slice(path)?;
        Ok(Text::of(text))
    }

    /// An equal folder. Its one refusal is want of memory.
    pub fn copy(&self, alloc: Global) -> Result<FolderRef, AllocError>
        ensures { IfOk result (λ folder. folder ≡ self.now) }
    {
        Ok(FolderRef {
            up: self.up,
            path: self.path.copy(alloc)?,
        })
    }
}
