//! Which constraints meet.

ghost use Rattle.std.specs.Prelude.{◌≡◌, ◌++◌, None, not, ◌&&◌};
ghost use Rattle.std.specs.List.{list_any};
ghost use Rattle.std.specs.Option.{option_copied, option_map};
ghost use Rattle.std.specs.Ordering.{is_gt};
ghost use Rattle.constraint_set.specs.Overlap.{is_branch, is_exclusive, is_ordering, names_branch, orders_branch, excludes, is_open, overlaps};
ghost use Rattle.constraint_set.specs.Ends.{limit_of, is_end, limit_in, toward, limit_cmp, tighter_of, tightest_of, room_at, first_branch};

use crate::constraint::{Comparison, Constraint, Operator};
use crate::satisfies::all_hold;
use std::cmp::Ordering;
use version_norm::{Numbered, Version, compare_numbered};

/// A side on which a comparison ends what it takes.
#[derive(Clone, Copy, PartialEq, Eq)]
pub enum Side {
    /// Nothing below the version is taken: `>`, `>=` and `==`.
    Lower,
    /// Nothing above the version is taken: `<`, `<=` and `==`.
    Upper,
}

/// An end, and whether the version itself is left out.
#[derive(Clone, Copy)]
struct End<'a> {
    version: &'a Numbered,
    exclusive: bool,
}

fn is_branch_version(version: &Version) -> bool
    ensures { result ≡ is_branch version.now }
{
    matches!(version, Version::Branch(_))
}

fn is_ordered(operator: Operator) -> bool
    ensures { result ≡ is_ordering operator }
{
    match operator {
        Operator::Less | Operator::LessOrEqual | Operator::Greater | Operator::GreaterOrEqual =>
            true,
        Operator::Equal | Operator::NotEqual => false,
    }
}

fn ends(side: Side, operator: Operator) -> bool
    ensures { result ≡ is_end side operator }
{
    match (side, operator) {
        (_, Operator::Equal) => true,
        (Side::Lower, Operator::Greater | Operator::GreaterOrEqual) => true,
        (Side::Upper, Operator::Less | Operator::LessOrEqual) => true,
        _ => false,
    }
}

fn leaves_out(operator: Operator) -> bool
    ensures { result ≡ is_exclusive operator }
{
    matches!(operator, Operator::Less | Operator::Greater)
}

fn is_branch_named(comparison: &Comparison) -> bool
    ensures { result ≡ names_branch comparison.now }
{
    comparison.operator == Operator::Equal && is_branch_version(&comparison.version)
}

fn is_branch_ordered(comparison: &Comparison) -> bool
    ensures { result ≡ orders_branch comparison.now }
{
    is_ordered(comparison.operator) && is_branch_version(&comparison.version)
}

fn has_ordered_branch(comparisons: &[Comparison]) -> bool
    ensures { result ≡ list_any orders_branch comparisons.now }
{
    comparisons.iter().any(|c| is_branch_ordered(c))
}

/// The branch of the first `==` of one.
fn named_branch(comparisons: &[Comparison]) -> Option<&Version>
    ensures { option_copied result ≡ first_branch comparisons.now }
{
    for comparison in comparisons {
        if is_branch_named(comparison) {
            return Some(&comparison.version);
        }
    }
    None
}

fn is_excluded(version: &Numbered, comparison: &Comparison) -> bool
    ensures { result ≡ excludes (Version.Numbered version.now) comparison.now }
{
    match (comparison.operator, &comparison.version) {
        (Operator::NotEqual, Version::Numbered(other)) => {
            compare_numbered(version, other) == Ordering::Equal
        }
        _ => false,
    }
}

fn is_excluded_by(version: &Numbered, comparisons: &[Comparison]) -> bool
    ensures { result ≡ list_any (excludes (Version.Numbered version.now)) comparisons.now }
{
    comparisons.iter().any(|c| is_excluded(version, c))
}

fn end_at(side: Side, comparison: &Comparison) -> Option<End<'_>>
    ensures { option_map limit_of result ≡ limit_in side comparison.now }
{
    match &comparison.version {
        Version::Numbered(version) if ends(side, comparison.operator) => Some(End {
            version,
            exclusive: leaves_out(comparison.operator),
        }),
        _ => None,
    }
}

fn order_toward(side: Side, version: &Numbered, other: &Numbered) -> Ordering
    ensures { result ≡ toward side version.now other.now }
{
    match side {
        Side::Lower => compare_numbered(version, other),
        Side::Upper => compare_numbered(other, version),
    }
}

/// Whether an end leaves less than the last one that was taken.
fn is_tighter(side: Side, next: &End<'_>, last: &End<'_>) -> bool
    ensures { result ≡ is_gt (limit_cmp side (limit_of next.now) (limit_of last.now)) }
{
    let order = order_toward(side, next.version, last.version);
    order.then(next.exclusive.cmp(&last.exclusive)) == Ordering::Greater
}

fn tighter<'a>(side: Side, so_far: Option<End<'a>>, next: Option<End<'a>>) -> Option<End<'a>>
    ensures { option_map limit_of result ≡ tighter_of side (option_map limit_of so_far.entry) (option_map limit_of next.entry) }
{
    match (so_far, next) {
        (so_far, None) => so_far,
        (None, Some(next)) => Some(next),
        (Some(last), Some(next)) => {
            if is_tighter(side, &next, &last) {
                Some(next)
            } else {
                Some(last)
            }
        }
    }
}

/// The end that leaves the least, of one so far and those of a list.
fn tightest<'a>(
    side: Side,
    so_far: Option<End<'a>>,
    comparisons: &'a [Comparison],
) -> Option<End<'a>>
    ensures { option_map limit_of result ≡ tightest_of side (option_map limit_of so_far.entry) comparisons.now }
{
    let mut end = so_far;
    for comparison in comparisons {
        end = tighter(side, end, end_at(side, comparison));
    }
    end
}

/// The tightest end of two lists, joined.
#[tactic(auto, using(crate::proofs::Ends::tightest_of_both))]
fn joined_end<'a>(side: Side, first: &'a [Comparison], second: &'a [Comparison]) -> Option<End<'a>>
    ensures { option_map limit_of result ≡ tightest_of side None (first.now ++ second.now) }
{
    tightest(side, tightest(side, None, first), second)
}

fn take_both(first: &[Comparison], second: &[Comparison], low: &End<'_>, high: &End<'_>) -> bool
    ensures { result ≡ (not low.now.exclusive && not high.now.exclusive
        && not (list_any (excludes (Version.Numbered low.now.version.now)) (first.now ++ second.now))) }
{
    !low.exclusive
        && !high.exclusive
        && !is_excluded_by(low.version, first)
        && !is_excluded_by(low.version, second)
}

/// Whether two ends leave room in the joined list.
fn leave_room_at(
    first: &[Comparison],
    second: &[Comparison],
    low: Option<End<'_>>,
    high: Option<End<'_>>,
) -> bool
    ensures { result ≡ room_at (first.now ++ second.now) (option_map limit_of low.entry) (option_map limit_of high.entry) }
{
    match (low, high) {
        (Some(low), Some(high)) => match compare_numbered(low.version, high.version) {
            Ordering::Less => true,
            Ordering::Equal => take_both(first, second, &low, &high),
            Ordering::Greater => false,
        },
        _ => true,
    }
}

/// Whether there is room between the ends of the joined list.
fn has_room(first: &[Comparison], second: &[Comparison]) -> bool
    ensures { result ≡ room_at (first.now ++ second.now)
        (tightest_of Side.Lower None (first.now ++ second.now)) (tightest_of Side.Upper None (first.now ++ second.now)) }
{
    leave_room_at(
        first,
        second,
        joined_end(Side::Lower, first, second),
        joined_end(Side::Upper, first, second),
    )
}

/// The branch of the first `==` of one, in two lists.
#[tactic(auto, using(crate::proofs::Ends::first_branch_of_both))]
fn joined_branch<'a>(first: &'a [Comparison], second: &'a [Comparison]) -> Option<&'a Version>
    ensures { option_copied result ≡ first_branch (first.now ++ second.now) }
{
    match named_branch(first) {
        Some(branch) => Some(branch),
        None => named_branch(second),
    }
}

/// Whether some version could satisfy all comparisons of both lists.
fn is_open_together(first: &[Comparison], second: &[Comparison]) -> bool
    ensures { result ≡ is_open (first.now ++ second.now) }
{
    if has_ordered_branch(first) || has_ordered_branch(second) {
        return false;
    }
    match joined_branch(first, second) {
        Some(branch) => all_hold(branch, first) && all_hold(branch, second),
        None => has_room(first, second),
    }
}

fn meets_alternative(comparisons: &[Comparison], other: &Constraint) -> bool
    ensures { result ≡ list_any (λ second. is_open (comparisons.now ++ second)) other.now.alternatives }
{
    other
        .alternatives
        .as_slice()
        .iter()
        .any(|second| is_open_together(comparisons, second.as_slice()))
}

impl Constraint {
    /// Whether two constraints meet: whether some version could satisfy an alternative of each, whatever versions
    /// there are. Ends of numbered versions leave room where the lower one is below the upper one, or where they
    /// are one version that both take and no `!=` names. A branch is met by itself alone, and by `!=` of everything
    /// else. `<`, `<=`, `>` and `>=` of a branch meet nothing. Takes no memory.
    #[tactic(auto, unfolding(crate::specs::Overlap::overlaps))]
    pub fn meets(&self, other: &Constraint) -> bool
        ensures { result ≡ overlaps self.now other.now }
    {
        self.alternatives
            .as_slice()
            .iter()
            .any(|first| meets_alternative(first.as_slice(), other))
    }
}
