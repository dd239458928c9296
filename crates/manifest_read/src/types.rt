//! What is read of a manifest.

use constraint_set::Constraint;
use path_name::{Items, Name, Path, Text};
use version_norm::{Grade, Version};

/// Whose manifest it is. The keys of a root alone, as `repositories` and `require-dev`, are ignored in a member's.
#[derive(Clone, Copy, Debug, PartialEq, Eq)]
pub enum Role {
    /// The project itself.
    Root,
    /// A package that a project may install.
    Member,
}

/// A requirement, a conflict, or a name that a package replaces or provides.
#[derive(Debug, PartialEq, Eq, Drop)]
pub struct Link {
    /// The name of a package or of a platform package, in small letters.
    pub name: Name,
    /// The constraint as it is written.
    pub text: Text,
    /// The constraint. `self.version` in it is the version of the package whose link this is.
    pub wants: Constraint,
}

/// A path of an autoload rule.
#[derive(Debug, PartialEq, Eq, Drop)]
pub struct PathText {
    /// The path as it is written.
    pub written: Text,
    /// The path, counted from the package's folder.
    pub path: Path,
}

/// The folders of one prefix of `psr-4` or `psr-0`.
#[derive(Debug, PartialEq, Eq, Drop)]
pub struct PrefixDirs {
    /// The prefix as it is written.
    pub written: Text,
    /// The prefix without leading `\`. One of `psr-4` is empty or ends in `\`.
    pub prefix: Name,
    /// Its folders, in order.
    pub folders: Items<PathText>,
    /// Whether a text stands for the one folder, and no list.
    pub single: bool,
}

/// The autoload rules of a package (Composer's documentation, "autoload").
#[derive(Debug, PartialEq, Eq, Drop)]
pub struct Autoload {
    /// The rules of PSR-4, in order.
    pub psr4: Items<PrefixDirs>,
    /// The rules of PSR-0, in order.
    pub psr0: Items<PrefixDirs>,
    /// The files and folders whose classes are looked for, in order.
    pub classmap: Items<PathText>,
    /// The files that are always loaded, in order.
    pub files: Items<PathText>,
    /// The patterns of what the search for classes leaves out, in order, as they are written.
    pub exclude: Items<Text>,
}

/// A package.
#[derive(Debug, PartialEq, Eq, Drop)]
pub struct Package {
    /// The name, in small letters. A root without a name is `__root__`.
    pub name: Name,
    /// The version as it is written. Without one a member has `dev-main` and a root `1.0.0`.
    pub version_text: Text,
    /// The version.
    pub version: Version,
    /// The type, by default `library`.
    pub kind: Text,
    /// What it requires, in order. The names of one list are distinct here and below.
    pub require: Items<Link>,
    /// What it can't be installed with, in order.
    pub conflict: Items<Link>,
    /// What it replaces, in order.
    pub replace: Items<Link>,
    /// What it provides, in order.
    pub provide: Items<Link>,
    /// Its autoload rules.
    pub autoload: Autoload,
}

/// A platform package that the root lists in `config.platform`.
#[derive(Debug, PartialEq, Eq, Drop)]
pub struct PlatformRow {
    /// Its name.
    pub name: Name,
    /// Its version. None: it is written as `false`, and so absent.
    pub version: Option<Version>,
}

/// A path repository: a folder, or a pattern of folders, seen from the project.
#[derive(Debug, PartialEq, Eq, Drop)]
pub struct Repository {
    /// How many folders above the project it begins.
    pub up: u64,
    /// The segments from there. `*` stands for any one name that doesn't begin with `.`.
    pub segments: Items<Name>,
    /// The url as it is written.
    pub written: Text,
}

/// What a composer.json says. What a member's says of a root alone is as if it weren't there.
#[derive(Debug, PartialEq, Eq, Drop)]
pub struct Manifest {
    /// The package itself.
    pub package: Package,
    /// What the root requires for development, in order.
    pub require_dev: Items<Link>,
    /// The root's autoload rules for development.
    pub autoload_dev: Autoload,
    /// The root's path repositories, in order.
    pub repositories: Items<Repository>,
    /// The least stability of packages, by default `Stable`.
    pub minimum: Grade,
    /// Whether more stable packages are preferred, by default not.
    pub prefer_stable: bool,
    /// The platform packages that `config.platform` lists, in order.
    pub platform: Items<PlatformRow>,
    /// Whether `config.optimize-autoloader` holds, by default not.
    pub optimise: bool,
    /// Whether `config.classmap-authoritative` holds, by default not.
    pub authoritative: bool,
}
