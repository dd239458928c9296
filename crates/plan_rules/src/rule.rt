//! The rules that a selection may break.

use path_name::{Items, Name};

/// The candidates that a plan takes, by their numbers in the pool, in the order of choice. A number that is written
/// twice counts once, and one that the pool doesn't have stands for nothing.
#[derive(Debug, PartialEq, Eq, Drop)]
pub struct Selection {
    /// The numbers.
    pub members: Items<u32>,
}

/// A rule that a set of candidates breaks, with the names of packages that it speaks of.
#[derive(Debug, PartialEq, Eq, Drop)]
pub enum Rule {
    /// The package is less stable than the root allows.
    NotAllowed(Name),
    /// The name is owned or replaced by two packages, which are the second and the third.
    TwoOwners(Name, Name, Name),
    /// What the first requires, the second, is not there in a version that it asks for.
    Unmet(Name, Name),
    /// The first can't be installed beside the second, which the third is.
    Conflict(Name, Name, Name),
    /// What the first requires of the platform, the second, is listed as absent or in another version.
    Platform(Name, Name),
}

/// What a selection was found to be.
#[derive(Debug, PartialEq, Eq, Drop)]
pub enum Verdict {
    /// It breaks no rule.
    Meets,
    /// It breaks this rule, and none before it.
    Breaks(Rule),
}
