//! What the alternatives of a requirement are put in order by.

ghost use Rattle.std.specs.Prelude.{◌≡◌};
ghost use Rattle.std.proofs.Common.{refl};
ghost use Rattle.std.specs.Ordering.{eq_by_cmp, as_partial_cmp};
ghost use Rattle.std.specs.Cmp.{partial_equiv_from_equiv};
ghost use Rattle.plan_rules.specs.Preference.{version_order, stability_place};
ghost use Rattle.plan_rules.specs.Ranks.{standing_place, party_cmp, rank_cmp, rank_of};
ghost use Rattle.plan_rules.specs.RankOrder.{rank_total, rank_equality, rank_order};

use crate::offers::{Offer, Standing};
use manifest_read::Package;
use std::cmp::Ordering;
use version_norm::{Version, compare_numbered, stability};

/// What an alternative is ranked by: how its package stands for the name, its stability, where more stable packages are
/// preferred, and its version, name and number.
#[derive(Clone, Copy)]
pub(crate) struct Rank<'a> {
    pub(crate) offer: Offer<'a>,
    pub(crate) stability: u8,
}

/// Owners come before those that replace the name, and these before those that provide it.
fn place(standing: Standing<'_>) -> u8
    ensures { result ≡ standing_place standing.entry }
{
    match standing {
        Standing::Owns => 0,
        Standing::Replaces(_) => 1,
        Standing::Provides(_) => 2,
    }
}

fn stability_place(prefer_stable: bool, party: &Package) -> u8
    ensures { result ≡ stability_place prefer_stable party.now }
{
    if prefer_stable {
        stability(&party.version).rank()
    } else {
        0
    }
}

/// The rank of a package that stands so for a name.
pub(crate) fn rank_of<'a>(prefer_stable: bool, offer: &Offer<'a>) -> Rank<'a>
    ensures { result ≡ rank_of prefer_stable offer.now }
{
    Rank {
        offer: *offer,
        stability: stability_place(prefer_stable, offer.party),
    }
}

/// Numbered versions come before branches, the higher version first, and the byte-least branch.
fn compare_versions(one: &Version, other: &Version) -> Ordering
    ensures { result ≡ version_order one.now other.now }
{
    match (one, other) {
        (Version::Numbered(one), Version::Numbered(other)) => compare_numbered(other, one),
        (Version::Numbered(_), Version::Branch(_)) => Ordering::Less,
        (Version::Branch(_), Version::Numbered(_)) => Ordering::Greater,
        (Version::Branch(one), Version::Branch(other)) => one.cmp(other),
    }
}

fn compare_parties(one: &Package, other: &Package) -> Ordering
    ensures { result ≡ party_cmp one.now other.now }
{
    compare_versions(&one.version, &other.version).then(one.name.cmp(&other.name))
}

fn compare_ranks(one: &Rank<'_>, other: &Rank<'_>) -> Ordering
    ensures { result ≡ rank_cmp one.now other.now }
{
    let ways = place(one.offer.standing).cmp(&place(other.offer.standing));
    let stabilities = one.stability.cmp(&other.stability);
    let parties = compare_parties(one.offer.party, other.offer.party);
    let numbers = one.offer.number.cmp(&other.offer.number);
    ways.then(stabilities.then(parties)).then(numbers)
}

impl<'a> PartialEq for Rank<'a> {
    ghost eq = { eq_by_cmp rank_cmp };

    ghost laws = { partial_equiv_from_equiv rank_equality };

    fn eq(&self, other: &Rank<'a>) -> bool {
        compare_ranks(self, other) == Ordering::Equal
    }
}

impl<'a> Eq for Rank<'a> {
    ghost laws = { rank_equality };
}

impl<'a> Ord for Rank<'a> {
    ghost cmp = { rank_cmp };

    ghost total = { rank_total };

    ghost matches_partial_cmp = { λ a b. refl };

    ghost matches_eq = { λ a b. refl };

    fn cmp(&self, other: &Rank<'a>) -> Ordering {
        compare_ranks(self, other)
    }
}

impl<'a> PartialOrd for Rank<'a> {
    ghost partial_cmp = { as_partial_cmp rank_cmp };

    ghost laws = { rank_order };

    fn partial_cmp(&self, other: &Rank<'a>) -> Option<Ordering> {
        Some(self.cmp(other))
    }
}
