//! The plan of first choices by all sets of a pool's candidates.

use manifest_read::{Link, Package};
use path_name::Items;
use pkg_pool::Pool;
use plan_rules::{Index, Selection, Verdict, alternatives, check};
use std::alloc::Global;

/// Some lists, and behind them each with one more number.
fn doubled(alloc: Global, lists: Vec<Vec<u32>>, number: u32) -> Option<Vec<Vec<u32>>> {
    let mut all = Vec::new(alloc);
    for list in lists {
        let mut longer = Vec::from_slice(alloc, list.as_slice()).ok()?;
        longer.push(number).ok()?;
        all.push(list).ok()?;
        all.push(longer).ok()?;
    }
    Some(all)
}

/// The valid sets among some.
fn valid_sets(alloc: Global, pool: &Pool, sets: &[Vec<u32>]) -> Option<Vec<Vec<u32>>> {
    let mut valid = Vec::new(alloc);
    for set in sets {
        let members = Items::of(Vec::from_slice(alloc, set.as_slice()).ok()?);
        let selection = Selection { members };
        if check(alloc, pool, &selection).ok()? == Verdict::Meets {
            valid.push(selection.members.into_vec()).ok()?;
        }
    }
    Some(valid)
}

fn has_all(set: &[u32], list: &[u32]) -> bool {
    list.iter().all(|number| set.contains(number))
}

/// Whether a valid set has the members of a list.
fn extends(valid: &[Vec<u32>], list: &[u32]) -> bool {
    valid.iter().any(|set| has_all(set.as_slice(), list))
}

fn stands_for(links: &[Link], need: &Link) -> bool {
    links.iter().any(|link| link.name == need.name && need.wants.meets(&link.wants))
}

fn meets(party: &Package, need: &Link) -> bool {
    (party.name == need.name && need.wants.satisfies(&party.version))
        || stands_for(party.replace.as_slice(), need)
        || stands_for(party.provide.as_slice(), need)
}

fn waits(parties: &[&Package], need: &Link) -> bool {
    need.name.as_slice().contains(&b'/') && !parties.iter().any(|party| meets(*party, need))
}

/// The first of a package's requirements that waits.
fn first_waiting<'a>(parties: &[&Package], links: &'a [Link]) -> Option<&'a Link> {
    for link in links {
        if waits(parties, link) {
            return Some(link);
        }
    }
    None
}

/// The first requirement that is unmet behind a list.
fn first_unmet<'a>(alloc: Global, pool: &'a Pool, list: &[u32]) -> Option<Option<&'a Link>> {
    let root = &pool.root.package;
    let mut parties = Vec::new(alloc);
    parties.push(root).ok()?;
    for number in list {
        let one = pool.candidates.as_slice().get(*number as usize)?;
        parties.push(&one.package).ok()?;
    }
    let mut first = first_waiting(parties.as_slice(), root.require.as_slice());
    first = first.or(first_waiting(parties.as_slice(), pool.root.require_dev.as_slice()));
    for party in parties.as_slice() {
        first = first.or(first_waiting(parties.as_slice(), party.require.as_slice()));
    }
    Some(first)
}

fn in_order(alloc: Global, pool: &Pool, need: &Link) -> Option<Vec<u32>> {
    let index = Index::of_pool(alloc, pool).ok()?;
    alternatives(alloc, pool, &index, need).ok()
}

/// The list with the preferred alternative of a requirement with which a valid set has it.
fn next(alloc: Global, valid: &[Vec<u32>], list: &[u32], ordered: &[u32]) -> Option<Vec<u32>> {
    for number in ordered {
        let mut longer = Vec::from_slice(alloc, list).ok()?;
        longer.push(*number).ok()?;
        if extends(valid, longer.as_slice()) {
            return Some(longer);
        }
    }
    None
}

/// The sets of so many candidates.
fn sets(alloc: Global, pool: &Pool) -> Option<Vec<Vec<u32>>> {
    let mut sets = Vec::new(alloc);
    sets.push(Vec::new(alloc)).ok()?;
    let mut number: u32 = 0;
    for _ in pool.candidates.as_slice() {
        sets = doubled(alloc, sets, number)?;
        number = number.checked_add(1)?;
    }
    Some(sets)
}

/// The choices, where a set is valid.
fn choices(alloc: Global, pool: &Pool, valid: &[Vec<u32>]) -> Option<Vec<u32>> {
    let mut list = Vec::new(alloc);
    for _ in pool.candidates.as_slice() {
        if let Some(need) = first_unmet(alloc, pool, list.as_slice())? {
            let ordered = in_order(alloc, pool, need)?;
            list = next(alloc, valid, list.as_slice(), ordered.as_slice())?;
        }
    }
    Some(list)
}

/// The plan of first choices, or that no set is valid.
pub(super) fn plan_by_sets(alloc: Global, pool: &Pool) -> Option<Option<Vec<u32>>> {
    let sets = sets(alloc, pool)?;
    let valid = valid_sets(alloc, pool, sets.as_slice())?;
    if valid.is_empty() {
        return Some(None);
    }
    Some(Some(choices(alloc, pool, valid.as_slice())?))
}
