//! The flags and the platform's requirements of a lock.

ghost use Rattle.std.specs.Prelude.{◌≡◌, map, Ok, []};
ghost use Rattle.std.specs.Option.{option_copied, option_and_then};
ghost use Rattle.path_name.specs.Given.{GivesValue};
ghost use Rattle.json_ordered.specs.JsonParts.{number_in};
ghost use Rattle.json_ordered.specs.Docs.{tree_of, pair_of};
ghost use Rattle.manifest_read.specs.declared.fault.FieldFault.TheVariants.{OutOfMemory};
ghost use Rattle.manifest_read.specs.Pointers.{below};
ghost use Rattle.manifest_read.specs.Values.{each};
ghost use Rattle.lock_file.specs.Locks.{rank_spelled, rank_at, flag_at, flags_in, flags_of, platform_link_at, platform_links_in, platform_links_of};

use crate::types::{FlagRow, PlatformLink};
use json_ordered::Doc;
use manifest_read::FieldFault;
use manifest_read::fields::{Key, bad_field, below, object, owned_text, value};
use path_name::{Items, Name};
use std::alloc::Global;

/// The rank that is spelled so.
#[tactic(auto, unfolding(crate::specs::Locks::rank_spelled))]
fn rank_spelled(text: &[u8]) -> Option<u32>
    ensures { result ≡ rank_spelled text.now }
{
    if text == b"0".as_slice() {
        Some(0)
    } else if text == b"5".as_slice() {
        Some(5)
    } else if text == b"10".as_slice() {
        Some(10)
    } else if text == b"15".as_slice() {
        Some(15)
    } else if text == b"20".as_slice() {
        Some(20)
    } else {
        None
    }
}

fn rank_of_number(number: Option<&[u8]>) -> Option<u32>
    ensures { result ≡ option_and_then rank_spelled (option_copied number.entry) }
{
    match number {
        None => None,
        Some(text) => rank_spelled(text),
    }
}

#[tactic(auto, unfolding(crate::specs::Locks::rank_at))]
fn rank(alloc: Global, at: &[u8], token: &[u8], doc: &Doc) -> Result<u32, FieldFault>
    ensures { GivesValue OutOfMemory (rank_at (below at.now token.now) (tree_of doc.now)) result }
{
    match rank_of_number(doc.as_num()) {
        Some(rank) => Ok(rank),
        None => Err(bad_field(alloc, at, token)),
    }
}

#[tactic(auto, unfolding(crate::specs::Locks::flag_at))]
fn flag(alloc: Global, at: &[u8], pair: &(Name, Doc)) -> Result<FlagRow, FieldFault>
    ensures { GivesValue OutOfMemory (flag_at at.now (pair_of pair.now)) result }
{
    let rank = rank(alloc, at, pair.0.as_slice(), &pair.1)?;
    let name = pair.0.copy(alloc)?;
    Ok(FlagRow { name, rank })
}

/// The flags of these pairs.
fn flag_rows(alloc: Global, at: &[u8], pairs: &[(Name, Doc)]) -> Result<Items<FlagRow>, FieldFault>
    ensures { GivesValue OutOfMemory (each (flag_at at.now) (map pair_of pairs.now)) result }
{
    let mut rows = Vec::with_capacity(alloc, pairs.len())?;
    for pair in pairs {
        rows.push(flag(alloc, at, pair)?)?;
    }
    Ok(Items::of(rows))
}

#[tactic(auto, unfolding(crate::specs::Locks::flags_in))]
fn flags_in(alloc: Global, at: &[u8], doc: &Doc) -> Result<Items<FlagRow>, FieldFault>
    ensures { GivesValue OutOfMemory (flags_in at.now (tree_of doc.now)) result }
{
    let pairs = object(alloc, at, doc)?;
    flag_rows(alloc, at, pairs)
}

/// The flags of `stability-flags`; none where it is missing.
#[tactic(auto, unfolding(crate::specs::Locks::flags_of))]
pub(crate) fn flags_of(
    alloc: Global,
    at: &[u8],
    pairs: &[(Name, Doc)],
) -> Result<Items<FlagRow>, FieldFault>
    ensures { GivesValue OutOfMemory (flags_of at.now (map pair_of pairs.now)) result }
{
    match value(pairs, Key::StabilityFlags) {
        None => Ok(Items::of(Vec::new(alloc))),
        Some(doc) => {
            let pointer = below(alloc, at, Key::StabilityFlags.text())?;
            flags_in(alloc, pointer.as_slice(), doc)
        }
    }
}

#[tactic(auto, unfolding(crate::specs::Locks::platform_link_at))]
fn platform_link(alloc: Global, at: &[u8], pair: &(Name, Doc)) -> Result<PlatformLink, FieldFault>
    ensures { GivesValue OutOfMemory (platform_link_at at.now (pair_of pair.now)) result }
{
    let text = owned_text(alloc, at, pair.0.as_slice(), &pair.1)?;
    let name = pair.0.copy(alloc)?;
    Ok(PlatformLink { name, text })
}

/// The requirements of these pairs.
fn platform_rows(
    alloc: Global,
    at: &[u8],
    pairs: &[(Name, Doc)],
) -> Result<Items<PlatformLink>, FieldFault>
    ensures { GivesValue OutOfMemory (each (platform_link_at at.now) (map pair_of pairs.now)) result }
{
    let mut rows = Vec::with_capacity(alloc, pairs.len())?;
    for pair in pairs {
        rows.push(platform_link(alloc, at, pair)?)?;
    }
    Ok(Items::of(rows))
}

#[tactic(auto, unfolding(crate::specs::Locks::platform_links_in))]
fn platform_links_in(alloc: Global, at: &[u8], doc: &Doc) -> Result<Items<PlatformLink>, FieldFault>
    ensures { GivesValue OutOfMemory (platform_links_in at.now (tree_of doc.now)) result }
{
    let pairs = object(alloc, at, doc)?;
    platform_rows(alloc, at, pairs)
}

/// The requirements of `platform` or `platform-dev`; none where it is missing.
#[tactic(auto, unfolding(crate::specs::Locks::platform_links_of))]
pub(crate) fn platform_links_of(
    alloc: Global,
    at: &[u8],
    pairs: &[(Name, Doc)],
    key: Key,
) -> Result<Items<PlatformLink>, FieldFault>
    ensures { GivesValue OutOfMemory (platform_links_of at.now (map pair_of pairs.now) key) result }
{
    match value(pairs, key) {
        None => Ok(Items::of(Vec::new(alloc))),
        Some(doc) => {
            let pointer = below(alloc, at, key.text())?;
            platform_links_in(alloc, pointer.as_slice(), doc)
        }
    }
}
