//! Whether a change was made.

/// What a call that changes a tree answers.
#[derive(Clone, Copy, Debug, PartialEq, Eq)]
pub enum Did {
    /// The change was made.
    Done,
    /// The tree has no place for it, and nothing changed.
    Misplaced,
}

/// What making a folder answers.
#[derive(Clone, Copy, Debug, PartialEq, Eq)]
pub enum Made {
    /// The folder was made.
    New,
    /// An entry is there already, and nothing changed.
    Exists,
    /// The tree has no place for it, and nothing changed.
    Misplaced,
}
