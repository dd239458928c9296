//! Constraints on versions.

ghost use Rattle.std.specs.Prelude.{◌≡◌, IfOk};

use path_name::Items;
use std::alloc::{AllocError, Global};
use version_norm::{Grade, Version};

/// How a version is compared.
#[derive(Clone, Copy, Debug, PartialEq, Eq)]
pub enum Operator {
    /// `<`: below the version.
    Less,
    /// `<=`: below the version, or it.
    LessOrEqual,
    /// `>`: above the version.
    Greater,
    /// `>=`: above the version, or it.
    GreaterOrEqual,
    /// `==`: the version.
    Equal,
    /// `!=`: any other version.
    NotEqual,
}

/// A comparison with a version, as `>=1.0.0.0-dev`.
#[derive(Debug, PartialEq, Eq, Drop)]
pub struct Comparison {
    /// How it is compared.
    pub operator: Operator,
    /// With what.
    pub version: Version,
}

/// The stability that a constraint gives the package that it is written for, where it is one of the root's
/// requirements (Composer documentation, "Stability constraints").
#[derive(Clone, Copy, Debug, PartialEq, Eq)]
pub enum Flag {
    /// Written behind an `@`, as in `1.0@beta`. Of several, the least stable one.
    Written(Grade),
    /// That of the one version that the constraint names, where it isn't stable, as in `^1.0-beta`.
    Inferred(Grade),
}

/// A constraint: the versions that satisfy all comparisons of one of its alternatives.
#[derive(Debug, PartialEq, Eq, Drop)]
pub struct Constraint {
    /// Its alternatives, each a list of comparisons, in the order in which they are written. One without
    /// comparisons takes any version.
    pub alternatives: Items<Items<Comparison>>,
    /// The stability that it gives its package, if any.
    pub flag: Option<Flag>,
}

impl Comparison {
    /// An equal comparison. Its one refusal is want of memory.
    pub fn copy(&self, alloc: Global) -> Result<Comparison, AllocError>
        ensures { IfOk result (λ comparison. comparison ≡ self.now) }
    {
        Ok(Comparison {
            operator: self.operator,
            version: self.version.copy(alloc)?,
        })
    }
}

fn copy_comparisons(
    alloc: Global,
    comparisons: &[Comparison],
) -> Result<Items<Comparison>, AllocError>
    ensures { IfOk result (λ copy. copy ≡ comparisons.now) }
{
    let mut copies = Vec::with_capacity(alloc, comparisons.len())?;
    for comparison in comparisons {
        copies.push(comparison.copy(alloc)?)?;
    }
    Ok(Items::of(copies))
}

fn copy_alternatives(
    alloc: Global,
    alternatives: &[Items<Comparison>],
) -> Result<Items<Items<Comparison>>, AllocError>
    ensures { IfOk result (λ copy. copy ≡ alternatives.now) }
{
    let mut copies = Vec::with_capacity(alloc, alternatives.len())?;
    for alternative in alternatives {
        copies.push(copy_comparisons(alloc, alternative.as_slice())?)?;
    }
    Ok(Items::of(copies))
}

impl Constraint {
    /// The stability that the constraint gives its package: the least stable one that is written behind an `@`,
    /// else that of the version of its one part, where that isn't stable and the part is no range. Takes no memory.
    pub fn flag(&self) -> Option<Flag>
        ensures { result ≡ self.now.flag }
    {
        self.flag
    }

    /// An equal constraint. Its one refusal is want of memory.
    pub fn copy(&self, alloc: Global) -> Result<Constraint, AllocError>
        ensures { IfOk result (λ constraint. constraint ≡ self.now) }
    {
        Ok(Constraint {
            alternatives: copy_alternatives(alloc, self.alternatives.as_slice())?,
            flag: self.flag,
        })
    }
}
