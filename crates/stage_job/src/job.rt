//! Jobs: what is to stand in a project, target by target.

use path_name::{Items, Path, Text};

/// What a folder that is made of parts has at a place below it.
#[derive(Debug, PartialEq, Eq, Drop)]
pub enum Leaf {
    /// A copy of the package whose folder is this one.
    Copy(Path),
    /// A file of these bytes.
    Bytes(Text),
}

/// A part of a folder.
#[derive(Debug, PartialEq, Eq, Drop)]
pub struct Inner {
    /// Its place, from the folder.
    pub below: Path,
    /// What stands there.
    pub from: Leaf,
}

/// What is to stand at a target.
#[derive(Debug, PartialEq, Eq, Drop)]
pub enum Source {
    /// A copy of the package whose folder is this one, counted from the tree's root: all files and folders
    /// below it but the top entries `vendor`, `.git` and `.install`.
    Copy(Path),
    /// A file of these bytes.
    Bytes(Text),
    /// A folder of these parts, and of the folders that are above them. No place of a part is the folder
    /// itself, or at or below the place of another.
    Folder(Items<Inner>),
    /// Nothing: what stands at the target is to be taken away.
    Gone,
}

/// A part of a job.
#[derive(Debug, PartialEq, Eq, Drop)]
pub struct Part {
    /// Where it goes, from the project: `composer.lock`, `vendor`, or a path below `vendor`.
    pub target: Path,
    /// What is to stand there.
    pub from: Source,
}

/// What is to stand in a project. No target is at or below another.
#[derive(Debug, PartialEq, Eq, Drop)]
pub struct Job {
    /// The parts, in the order in which they are staged and moved.
    pub parts: Items<Part>,
}
