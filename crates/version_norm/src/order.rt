//! The order of versions.

ghost use Rattle.std.specs.Prelude.{◌≡◌, Some};
ghost use Rattle.std.specs.Cmp.Lexicographic.{slice_cmp};
ghost use Rattle.path_name.specs.Orders.{byte_cmp};
ghost use Rattle.version_norm.specs.VersionOrder.{IsNumbered, four_numbers, stage_rank, modifier_rank, rank_cmp, with_end, following, element_cmp, numbered_cmp, version_cmp};

use crate::version::{Modifier, Numbered, Numbers, Stage, Version};
use std::cmp::Ordering;

/// The order of two versions that are no branches (Composer documentation, "Versions and constraints"): by the
/// four numbers, then by the rank (a dev mark without a modifier, alpha, beta, RC, no modifier, patch), then by
/// what follows the modifier, where the dev mark is below the end and the end below every number. Takes no
/// memory.
pub fn compare(a: &Version, b: &Version) -> Ordering
    requires first { IsNumbered a.now }
    requires second { IsNumbered b.now }
    ensures { version_cmp a.now b.now ≡ Some result }
{
    match a {
        Version::Branch(_) => unreachable!(),
        Version::Numbered(a) => match b {
            Version::Branch(_) => unreachable!(),
            Version::Numbered(b) => compare_numbered(a, b),
        },
    }
}

/// The order of two versions of four numbers, as `compare` has it. Takes no memory.
pub fn compare_numbered(a: &Numbered, b: &Numbered) -> Ordering
    ensures { result ≡ numbered_cmp a.now b.now }
{
    compare_numbers(a.numbers, b.numbers).then(compare_ranks(a, b).then(compare_following(a, b)))
}

fn compare_numbers(a: Numbers, b: Numbers) -> Ordering
    ensures { result ≡ byte_cmp (four_numbers a) (four_numbers b) }
{
    a.cmp(&b)
}

/// What is compared after the numbers, from the lowest on.
#[derive(Clone, Copy, PartialEq, Eq, PartialOrd, Ord)]
enum Rank {
    DevAlone,
    Alpha,
    Beta,
    Rc,
    Unmodified,
    Patch,
}

fn stage_rank_of(stage: Stage) -> Rank
    ensures { result ≡ stage_rank stage }
{
    match stage {
        Stage::Alpha => Rank::Alpha,
        Stage::Beta => Rank::Beta,
        Stage::Rc => Rank::Rc,
        Stage::Patch => Rank::Patch,
    }
}

fn rank_in(modifier: &Option<Modifier>, dev: bool) -> Rank
    ensures { result ≡ modifier_rank modifier.now dev }
{
    match modifier {
        None if dev => Rank::DevAlone,
        None => Rank::Unmodified,
        Some(modifier) => stage_rank_of(modifier.stage),
    }
}

fn compare_ranks(a: &Numbered, b: &Numbered) -> Ordering
    ensures { result ≡ rank_cmp (modifier_rank a.now.modifier a.now.dev) (modifier_rank b.now.modifier b.now.dev) }
{
    rank_in(&a.modifier, a.dev).cmp(&rank_in(&b.modifier, b.dev))
}

/// The order of what follows the modifiers.
#[tactic(auto, using(crate::proofs::Following::with_end_above, crate::proofs::Following::with_end_below))]
fn compare_following(a: &Numbered, b: &Numbered) -> Ordering
    ensures { result ≡ slice_cmp element_cmp (following a.now.modifier a.now.dev) (following b.now.modifier b.now.dev) }
{
    match &a.modifier {
        None => match &b.modifier {
            None => Ordering::Equal,
            Some(_) => Ordering::Less,
        },
        Some(first) => match &b.modifier {
            None => Ordering::Greater,
            Some(second) => compare_ends(
                first.numbers.as_slice(),
                a.dev,
                second.numbers.as_slice(),
                b.dev,
            ),
        },
    }
}

/// The order of two lists of numbers, each with the dev mark or the end after it.
#[tactic(auto, using(crate::proofs::Following::with_end_cmp, crate::proofs::Following::final_cmp))]
fn compare_ends(a: &[u64], a_dev: bool, b: &[u64], b_dev: bool) -> Ordering
    ensures { result ≡ slice_cmp element_cmp (with_end a.now a_dev) (with_end b.now b_dev) }
{
    a.cmp(&b).then(b_dev.cmp(&a_dev))
}
