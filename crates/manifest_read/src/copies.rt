//! Equal copies of what is read.

ghost use Rattle.std.specs.Prelude.{◌≡◌, IfOk};

use crate::types::{
    Autoload, Link, Manifest, Package, PathText, PlatformRow, PrefixDirs, Repository,
};
use path_name::{Items, Name, Text};
use std::alloc::{AllocError, Global};
use version_norm::Version;

/// What has equal copies.
trait Copied {
    fn copied(&self, alloc: Global) -> Result<Self, AllocError>
        ensures { IfOk result (λ copied. copied ≡ self.now) };
}

/// A list of equal copies.
fn copies<X: Copied + Drop>(alloc: Global, items: &Items<X>) -> Result<Items<X>, AllocError>
    ensures { IfOk result (λ copied. copied ≡ items.now) }
{
    let items = items.as_slice();
    let mut copied = Vec::with_capacity(alloc, items.len())?;
    for item in items {
        copied.push(item.copied(alloc)?)?;
    }
    Ok(Items::of(copied))
}

impl Copied for Text {
    fn copied(&self, alloc: Global) -> Result<Text, AllocError> {
        self.copy(alloc)
    }
}

impl Copied for Name {
    fn copied(&self, alloc: Global) -> Result<Name, AllocError> {
        self.copy(alloc)
    }
}

impl Copied for Link {
    fn copied(&self, alloc: Global) -> Result<Link, AllocError> {
        self.copy(alloc)
    }
}

impl Copied for PathText {
    fn copied(&self, alloc: Global) -> Result<PathText, AllocError> {
        self.copy(alloc)
    }
}

impl Copied for PrefixDirs {
    fn copied(&self, alloc: Global) -> Result<PrefixDirs, AllocError> {
        self.copy(alloc)
    }
}

impl Copied for PlatformRow {
    fn copied(&self, alloc: Global) -> Result<PlatformRow, AllocError> {
        self.copy(alloc)
    }
}

impl Copied for Repository {
    fn copied(&self, alloc: Global) -> Result<Repository, AllocError> {
        self.copy(alloc)
    }
}

impl Link {
    /// An equal link. Its one refusal is want of memory.
    pub fn copy(&self, alloc: Global) -> Result<Link, AllocError>
        ensures { IfOk result (λ copied. copied ≡ self.now) }
    {
        Ok(Link {
            name: self.name.copy(alloc)?,
            text: self.text.copy(alloc)?,
            wants: self.wants.copy(alloc)?,
        })
    }
}

impl PathText {
    /// An equal path. Its one refusal is want of memory.
    pub fn copy(&self, alloc: Global) -> Result<PathText, AllocError>
        ensures { IfOk result (λ copied. copied ≡ self.now) }
    {
        Ok(PathText {
            written: self.written.copy(alloc)?,
            path: self.path.copy(alloc)?,
        })
    }
}

impl PrefixDirs {
    /// An equal prefix with equal folders. Its one refusal is want of memory.
    pub fn copy(&self, alloc: Global) -> Result<PrefixDirs, AllocError>
        ensures { IfOk result (λ copied. copied ≡ self.now) }
    {
        Ok(PrefixDirs {
            written: self.written.copy(alloc)?,
            prefix: self.prefix.copy(alloc)?,
            folders: copies(alloc, &self.folders)?,
            single: self.single,
        })
    }
}

impl Autoload {
    /// Equal rules. Its one refusal is want of memory.
    pub fn copy(&self, alloc: Global) -> Result<Autoload, AllocError>
        ensures { IfOk result (λ copied. copied ≡ self.now) }
    {
        Ok(Autoload {
            psr4: copies(alloc, &self.psr4)?,
            psr0: copies(alloc, &self.psr0)?,
            classmap: copies(alloc, &self.classmap)?,
            files: copies(alloc, &self.files)?,
            exclude: copies(alloc, &self.exclude)?,
        })
    }
}

impl Package {
    /// An equal package. Its one refusal is want of memory.
    pub fn copy(&self, alloc: Global) -> Result<Package, AllocError>
        ensures { IfOk result (λ copied. copied ≡ self.now) }
    {
        Ok(Package {
            name: self.name.copy(alloc)?,
            version_text: self.version_text.copy(alloc)?,
            version: self.version.copy(alloc)?,
            kind: self.kind.copy(alloc)?,
            require: copies(alloc, &self.require)?,
            conflict: copies(alloc, &self.conflict)?,
            replace: copies(alloc, &self.replace)?,
            provide: copies(alloc, &self.provide)?,
            autoload: self.autoload.copy(alloc)?,
        })
    }
}

fn copied_version(alloc: Global, version: &Option<Version>) -> Result<Option<Version>, AllocError>
    ensures { IfOk result (λ copied. copied ≡ version.now) }
{
    match version {
        None => Ok(None),
        Some(version) => Ok(Some(version.copy(alloc)?)),
    }
}

impl PlatformRow {
    /// An equal row. Its one refusal is want of memory.
    pub fn copy(&self, alloc: Global) -> Result<PlatformRow, AllocError>
        ensures { IfOk result (λ copied. copied ≡ self.now) }
    {
        Ok(PlatformRow {
            name: self.name.copy(alloc)?,
            version: copied_version(alloc, &self.version)?,
        })
    }
}

impl Repository {
    /// An equal repository. Its one refusal is want of memory.
    pub fn copy(&self, alloc: Global) -> Result<Repository, AllocError>
        ensures { IfOk result (λ copied. copied ≡ self.now) }
    {
        Ok(Repository {
            up: self.up,
            segments: copies(alloc, &self.segments)?,
            written: self.written.copy(alloc)?,
        })
    }
}

impl Manifest {
    /// An equal manifest. Its one refusal is want of memory.
    pub fn copy(&self, alloc: Global) -> Result<Manifest, AllocError>
        ensures { IfOk result (λ copied. copied ≡ self.now) }
    {
        Ok(Manifest {
            package: self.package.copy(alloc)?,
            require_dev: copies(alloc, &self.require_dev)?,
            autoload_dev: self.autoload_dev.copy(alloc)?,
            repositories: copies(alloc, &self.repositories)?,
            minimum: self.minimum,
            prefer_stable: self.prefer_stable,
            platform: copies(alloc, &self.platform)?,
            optimise: self.optimise,
            authoritative: self.authoritative,
        })
    }
}
