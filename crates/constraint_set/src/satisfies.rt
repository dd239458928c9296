//! Which versions satisfy a constraint.

ghost use Rattle.std.specs.Prelude.{◌≡◌};
ghost use Rattle.version_norm.specs.VersionOrder.{numbered_cmp};
ghost use Rattle.constraint_set.specs.Satisfaction.{admits, admits_unordered, is_admitted, holds_at, all_hold_at, satisfies};

use crate::constraint::{Comparison, Constraint, Operator};
use std::cmp::Ordering;
use version_norm::{Version, compare_numbered};

fn admits_order(operator: Operator, order: Ordering) -> bool
    ensures { result ≡ admits operator order }
{
    match operator {
        Operator::Less => order == Ordering::Less,
        Operator::LessOrEqual => order != Ordering::Greater,
        Operator::Greater => order == Ordering::Greater,
        Operator::GreaterOrEqual => order != Ordering::Less,
        Operator::Equal => order == Ordering::Equal,
        Operator::NotEqual => order != Ordering::Equal,
    }
}

fn admits_without_order(operator: Operator, same: bool) -> bool
    ensures { result ≡ admits_unordered operator same }
{
    match operator {
        Operator::Less | Operator::LessOrEqual | Operator::Greater | Operator::GreaterOrEqual =>
            false,
        Operator::Equal => same,
        Operator::NotEqual => !same,
    }
}

fn admits_version(operator: Operator, version: &Version, other: &Version) -> bool
    ensures { result ≡ is_admitted operator version.now other.now }
{
    match (version, other) {
        (Version::Numbered(version), Version::Numbered(other)) => {
            admits_order(operator, compare_numbered(version, other))
        }
        (Version::Branch(name), Version::Branch(other)) => {
            admits_without_order(operator, name == other)
        }
        (Version::Numbered(_), Version::Branch(_)) | (Version::Branch(_), Version::Numbered(_)) => {
            admits_without_order(operator, false)
        }
    }
}

/// Whether the comparison holds at a version.
pub fn holds(version: &Version, comparison: &Comparison) -> bool
    ensures { result ≡ holds_at version.now comparison.now }
{
    admits_version(comparison.operator, version, &comparison.version)
}

/// Whether all of these comparisons hold at a version.
pub fn all_hold(version: &Version, comparisons: &[Comparison]) -> bool
    ensures { result ≡ all_hold_at version.now comparisons.now }
{
    comparisons
        .iter()
        .all(|comparison| holds(version, comparison))
}

impl Constraint {
    /// Whether a version satisfies the constraint: all comparisons of some alternative hold at it. A numbered
    /// version is compared by the order of versions; against a branch it satisfies `!=` alone. A branch satisfies
    /// `==` of an equal branch, and `!=` of everything else. Takes no memory.
    #[tactic(auto, unfolding(crate::specs::Satisfaction::satisfies))]
    pub fn satisfies(&self, version: &Version) -> bool
        ensures { result ≡ satisfies self.now version.now }
    {
        self.alternatives
            .as_slice()
            .iter()
            .any(|comparisons| all_hold(version, comparisons.as_slice()))
    }
}
