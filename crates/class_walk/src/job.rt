//! What is walked, and what is found.

use path_name::{Items, Name, Path};

/// By which rule the classes of a folder are looked for (Composer's documentation, "autoload").
#[derive(Debug, PartialEq, Eq, Drop)]
pub enum WalkRule {
    /// A path of `classmap`: a file or a folder, whose files end in `.php` or `.inc`. Each class counts.
    Listed,
    /// The folder of a row of PSR-4 of this prefix, whose files end in `.php`. A class counts in the file to which the row
    /// leads it.
    Psr4(Name),
    /// The same for PSR-0.
    Psr0(Name),
}

/// A file or folder to be walked.
#[derive(Debug, PartialEq, Eq, Drop)]
pub struct WalkJob {
    /// Where it stands.
    pub at: Path,
    /// The path that tables name for it.
    pub shown: Path,
    /// By which rule.
    pub rule: WalkRule,
    /// Paths at and below which nothing is taken to be.
    pub skip: Items<Path>,
}

/// A file that was scanned.
#[derive(Debug, PartialEq, Eq, Drop)]
pub struct Scanned {
    /// The number of the job that reached it, counted from 0.
    pub job: u32,
    /// The file's path, as tables name it.
    pub shown: Path,
    /// The classes that count of those that it declares, in order.
    pub names: Items<Name>,
}
