//! Links of a package.

ghost use Rattle.std.specs.Prelude.{◌≡◌, ℕ, List, map, None, IfOk};
ghost use Rattle.std.specs.Option.{option_map};
ghost use Rattle.std.specs.BTreeMap.{get};
ghost use Rattle.path_name.specs.Given.{Gives, GivesValue};
ghost use Rattle.path_name.specs.Orders.{byte_cmp};
ghost use Rattle.json_ordered.specs.Docs.{tree_of, pair_of};
ghost use Rattle.manifest_read.specs.declared.fault.FieldFault.TheVariants.{OutOfMemory};
ghost use Rattle.manifest_read.specs.Pointers.{below};
ghost use Rattle.manifest_read.specs.Values.{each};
ghost use Rattle.manifest_read.specs.Links.{last_named, kept, link_name_at, constraint_at, link_at, links_in, links_of};

use crate::fault::FieldFault;
use crate::key::Key;
use crate::names;
use crate::pointer::{bad_field, below, not_offered};
use crate::small_name::SmallName;
use crate::types::Link;
use crate::values::{object, owned_text, value};
use constraint_set::{Constraint, ConstraintFault};
use json_ordered::Doc;
use path_name::{Items, Name, Text};
use std::alloc::{AllocError, Global};
use std::collections::BTreeMap;
use version_norm::Version;

/// By each name in small letters the last pair that has it.
fn last_pairs<'a>(
    alloc: Global,
    pairs: &'a [(Name, Doc)],
) -> Result<BTreeMap<SmallName<'a>, &'a (Name, Doc)>, AllocError>
    ensures { IfOk result (λ last. (name : List ℕ) →
        option_map (λ pair. pair_of pair.now) (get byte_cmp last name) ≡ last_named None name (map pair_of pairs.now)) }
{
    let mut last = BTreeMap::new(alloc);
    for pair in pairs {
        let name = SmallName::of(pair.0.as_slice());
        let _earlier = last.insert(name, pair)?;
    }
    Ok(last)
}

/// The pairs that count: for each name in small letters the last one that has it, in the order in which the names
/// first come.
fn kept_pairs<'a>(
    alloc: Global,
    pairs: &'a [(Name, Doc)],
) -> Result<Vec<&'a (Name, Doc)>, AllocError>
    ensures { IfOk result (λ some. map (λ pair. pair_of pair.now) some.items ≡ kept (map pair_of pairs.now)) }
{
    let mut last = last_pairs(alloc, pairs)?;
    let mut some = Vec::new(alloc);
    for pair in pairs {
        let name = SmallName::of(pair.0.as_slice());
        if let Some(latest) = last.remove(&name) {
            some.push(latest)?;
        }
    }
    Ok(some)
}

/// The name of a link, in small letters.
#[tactic(auto, unfolding(crate::specs::Links::link_name_at))]
fn link_name(alloc: Global, at: &[u8], written: &[u8]) -> Result<Name, FieldFault>
    ensures { GivesValue OutOfMemory (link_name_at (below at.now written.now) written.now) result }
{
    let name = names::lowered(alloc, written)?;
    if names::is_link_name(name.as_slice()) {
        Ok(name)
    } else {
        Err(bad_field(alloc, at, written))
    }
}

/// The constraint of a link.
#[tactic(auto, unfolding(crate::specs::Links::constraint_at))]
fn constraint(
    alloc: Global,
    at: &[u8],
    token: &[u8],
    own: &Version,
    text: &[u8],
) -> Result<Constraint, FieldFault>
    ensures { GivesValue OutOfMemory (constraint_at (below at.now token.now) own.now text.now) result }
{
    match constraint_set::read(alloc, text, own) {
        Ok(wants) => Ok(wants),
        Err(ConstraintFault::InlineAlias(_)) => Err(not_offered(alloc, at, token)),
        Err(ConstraintFault::BadConstraint(_)) => Err(bad_field(alloc, at, token)),
        Err(ConstraintFault::OutOfMemory) => Err(FieldFault::OutOfMemory),
    }
}

#[tactic(auto, unfolding(crate::specs::Links::link_at))]
fn link(alloc: Global, own: &Version, at: &[u8], pair: &(Name, Doc)) -> Result<Link, FieldFault>
    ensures { GivesValue OutOfMemory (link_at own.now at.now (pair_of pair.now)) result }
{
    let token = pair.0.as_slice();
    let name = link_name(alloc, at, token)?;
    let text = owned_text(alloc, at, token, &pair.1)?;
    let wants = constraint(alloc, at, token, own, text.as_slice())?;
    Ok(Link { name, text, wants })
}

/// The links of these pairs.
fn links_at(
    alloc: Global,
    own: &Version,
    at: &[u8],
    pairs: &[&(Name, Doc)],
) -> Result<Items<Link>, FieldFault>
    ensures { GivesValue OutOfMemory (each (link_at own.now at.now) (map (λ pair. pair_of pair.now) pairs.now)) result }
{
    let mut links = Vec::with_capacity(alloc, pairs.len())?;
    for pair in pairs {
        links.push(link(alloc, own, at, *pair)?)?;
    }
    Ok(Items::of(links))
}

/// The links of an object that stands at a pointer.
#[tactic(auto, unfolding(crate::specs::Links::links_in))]
fn links_in(alloc: Global, own: &Version, at: &[u8], doc: &Doc) -> Result<Items<Link>, FieldFault>
    ensures { GivesValue OutOfMemory (links_in own.now at.now (tree_of doc.now)) result }
{
    let pairs = object(alloc, at, doc)?;
    let some = kept_pairs(alloc, pairs)?;
    links_at(alloc, own, at, some.as_slice())
}

/// The links of a key; none where it is missing. `self.version` in them is the version `own`.
#[tactic(auto, unfolding(crate::specs::Links::links_of))]
pub(crate) fn links_of(
    alloc: Global,
    own: &Version,
    at: &[u8],
    pairs: &[(Name, Doc)],
    key: Key,
) -> Result<Items<Link>, FieldFault>
    ensures { GivesValue OutOfMemory (links_of own.now at.now (map pair_of pairs.now) key) result }
{
    match value(pairs, key) {
        None => Ok(Items::of(Vec::new(alloc))),
        Some(doc) => {
            let pointer = below(alloc, at, key.text())?;
            links_in(alloc, own, pointer.as_slice(), doc)
        }
    }
}
