//! A pool of packages.

ghost use Rattle.std.specs.Prelude.{◌≡◌, IfOk};

use manifest_read::{Manifest, Package};
use path_name::{FolderRef, Items, Path, Text};
use std::alloc::{AllocError, Global};

/// A package that may be installed, with the folder that it is in.
#[derive(Debug, PartialEq, Eq, Drop)]
pub struct Candidate {
    /// The package.
    pub package: Package,
    /// The number of its repository among the root's, from 0.
    pub repository: u32,
    /// Its folder, seen from the project: the repository's url with the names that its `*` stand for.
    pub url: FolderRef,
    /// Its folder.
    pub folder: Path,
    /// The id of its composer.json: the 32 lower-case hexadecimal digits of its MD5.
    pub reference: Text,
}

/// The packages from which a project's are chosen.
#[derive(Debug, PartialEq, Eq, Drop)]
pub struct Pool {
    /// The project's own manifest.
    pub root: Manifest,
    /// The packages of its repositories, in order.
    pub candidates: Items<Candidate>,
}

impl Candidate {
    /// An equal candidate. Its one refusal is want of memory.
    pub fn copy(&self, alloc: Global) -> Result<Candidate, AllocError>
        ensures { IfOk result (λ copied. copied ≡ self.now) }
    {
        Ok(Candidate {
            package: self.package.copy(alloc)?,
            repository: self.repository,
            url: self.url.copy(alloc)?,
            folder: self.folder.copy(alloc)?,
            reference: self.reference.copy(alloc)?,
        })
    }
}
