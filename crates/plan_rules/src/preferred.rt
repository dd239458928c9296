//! The alternatives of a requirement, in order of preference.

ghost use Rattle.std.specs.Prelude.{◌≡◌, None, [], map, IfOk};
ghost use Rattle.std.specs.Option.{option_map};
ghost use Rattle.std.specs.BTreeSet.{IsOrdered};
ghost use Rattle.plan_rules.specs.Sets.{AreDistinct};
ghost use Rattle.plan_rules.specs.Preference.{AreAlternatives};
ghost use Rattle.plan_rules.specs.Offers.{shown, IsIndexOf};
ghost use Rattle.plan_rules.specs.Ranks.{rank_cmp, rank_of, head_of, heads, put_ranks, numbers_of};

use crate::index::Index;
use crate::offers::Offer;
use crate::ranks::{Rank, rank_of};
use manifest_read::Link;
use pkg_pool::Pool;
use std::alloc::{AllocError, Global};
use std::collections::BTreeSet;

/// The last offer where it is of the same package, which is the first that the package makes; else the offer itself.
fn head_of<'a>(last: Option<Offer<'a>>, offer: &Offer<'a>) -> Offer<'a>
    ensures { shown result ≡ head_of (option_map shown last.entry) (shown offer.now) }
{
    match last {
        Some(first) => {
            if first.number == offer.number {
                first
            } else {
                *offer
            }
        }
        None => *offer,
    }
}

/// For each offer that meets a requirement the first offer of its package.
fn heads<'a>(alloc: Global, offers: &[Offer<'a>], need: &Link) -> Result<Vec<Offer<'a>>, AllocError>
    ensures { IfOk result (λ list. map shown list.items ≡ heads need.now None (map shown offers.now)) }
{
    let mut list = Vec::new(alloc);
    let mut last: Option<Offer<'a>> = None;
    for offer in offers {
        let head = head_of(last, offer);
        if offer.meets(need) {
            list.push(head)?;
        }
        last = Some(head);
    }
    Ok(list)
}

/// The ranks of some offers, in order and each once.
fn ranked<'a>(
    alloc: Global,
    offers: &[Offer<'a>],
    prefer_stable: bool,
) -> Result<BTreeSet<Rank<'a>>, AllocError>
    ensures { IfOk result (λ ranks. ranks.keys ≡ put_ranks [] (map (rank_of prefer_stable) offers.now)) }
{
    let mut ranks = BTreeSet::new(alloc);
    for offer in offers {
        let _new = ranks.insert(rank_of(prefer_stable, offer))?;
    }
    Ok(ranks)
}

/// The numbers of ranks, in their order.
fn numbers(alloc: Global, ranks: &BTreeSet<Rank<'_>>) -> Result<Vec<u32>, AllocError>
    ensures numbers { IfOk result (λ list. list.items ≡ numbers_of ranks.now.keys) }
    ensures ordered { IsOrdered rank_cmp ranks.now }
{
    let mut list = Vec::with_capacity(alloc, ranks.len())?;
    for rank in ranks {
        list.push(rank.offer.number)?;
    }
    Ok(list)
}

/// The candidates of a pool that meet a requirement, by their numbers, each once and the preferred ones first: those that
/// own the name, then those that replace it, then those that provide it; where the root prefers stable packages, the
/// more stable ones; numbered versions before branches, the higher version, or the byte-least branch; the byte-least
/// name; the earlier place in the pool ("The composer.json schema", "prefer-stable"). The index is that of the pool's
/// candidates; of another one nothing is promised. Its one refusal is want of memory. Besides putting them in order its
/// time grows with the packages that own, replace or provide the name.
pub fn alternatives(
    alloc: Global,
    pool: &Pool,
    index: &Index<'_>,
    need: &Link,
) -> Result<Vec<u32>, AllocError>
    ensures alternatives { IsIndexOf index.now (map (λ candidate. candidate.«package») pool.now.candidates) → IfOk result (λ list. AreAlternatives pool.now need.now list.items) }
    ensures once { IsIndexOf index.now (map (λ candidate. candidate.«package») pool.now.candidates) → IfOk result (λ list. AreDistinct list.items) }
{
    let heads = heads(alloc, index.rows_at(&need.name), need)?;
    let ranks = ranked(alloc, heads.as_slice(), pool.root.prefer_stable)?;
    numbers(alloc, &ranks)
}
