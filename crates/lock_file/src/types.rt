//! What is read of a lock and of installed.json.

use manifest_read::Package;
use path_name::{FolderRef, Items, Name, Text};
use std::alloc::{AllocError, Global};
use version_norm::Grade;

/// A package of a lock, and where it is installed from.
#[derive(Debug, PartialEq, Eq, Drop)]
pub struct Locked {
    /// The package.
    pub package: Package,
    /// The package's own folder, seen from the project.
    pub url: FolderRef,
    /// What stood in that folder when it was locked, as Composer marks it. Empty where nothing is said.
    pub reference: Text,
}

impl Locked {
    ghost use Rattle.std.specs.Prelude.{◌≡◌, IfOk};

    /// An equal package. Its one refusal is want of memory.
    pub fn copy(&self, alloc: Global) -> Result<Locked, AllocError>
        ensures { IfOk result (λ copied. copied ≡ self.now) }
    {
        Ok(Locked {
            package: self.package.copy(alloc)?,
            url: self.url.copy(alloc)?,
            reference: self.reference.copy(alloc)?,
        })
    }
}

/// What the root requires of the platform, as it is written.
#[derive(Debug, PartialEq, Eq, Drop)]
pub struct PlatformLink {
    /// The name.
    pub name: Name,
    /// The constraint.
    pub text: Text,
}

/// How unstable a package may be whatever `minimum-stability` says.
#[derive(Debug, PartialEq, Eq, Drop)]
pub struct FlagRow {
    /// The package's name.
    pub name: Name,
    /// The rank of the stability: 0, 5, 10, 15 or 20.
    pub rank: u32,
}

/// A composer.lock.
#[derive(Debug, PartialEq, Eq, Drop)]
pub struct Lock {
    /// The content hash of the composer.json that was locked.
    pub content_hash: Text,
    /// The packages that are installed without the requirements for development too, in order. No name stands twice in
    /// these and the next ones.
    pub packages: Items<Locked>,
    /// The packages that are installed for development alone, in order.
    pub packages_dev: Items<Locked>,
    /// The least stability of packages, by default `Stable`.
    pub minimum: Grade,
    /// The flags of single packages, in order.
    pub flags: Items<FlagRow>,
    /// Whether more stable packages are preferred, by default not.
    pub prefer_stable: bool,
    /// What the root requires of the platform, in order.
    pub platform: Items<PlatformLink>,
    /// What it requires of the platform for development, in order.
    pub platform_dev: Items<PlatformLink>,
}

/// An installed.json: what is in `vendor`.
#[derive(Debug, PartialEq, Eq, Drop)]
pub struct Installed {
    /// The packages, in order. Their names are distinct.
    pub packages: Items<Package>,
    /// Whether those for development were installed too, by default not.
    pub dev: bool,
    /// The names of the packages for development, in order.
    pub dev_names: Items<Name>,
}
