//! Where a package of a lock is installed from.

ghost use Rattle.std.specs.Prelude.{◌≡◌, map, Ok, []};
ghost use Rattle.path_name.specs.Given.{GivesValue};
ghost use Rattle.json_ordered.specs.Docs.{tree_of, pair_of};
ghost use Rattle.manifest_read.specs.declared.fault.FieldFault.TheVariants.{OutOfMemory};
ghost use Rattle.manifest_read.specs.Pointers.{below};
ghost use Rattle.lock_file.specs.Locks.{dist_url_at, dist_url_of, reference_of, dist_from, dist_at, dist_of};

use json_ordered::Doc;
use manifest_read::FieldFault;
use manifest_read::fields::{
    Key, bad_field, begins_with_slash, below, folder, not_offered, object, owned_text, path_type,
    text, value,
};
use path_name::{FolderRef, Name, Text};
use std::alloc::Global;

/// Where a package is installed from.
#[derive(Drop)]
pub(crate) struct Dist {
    pub url: FolderRef,
    pub reference: Text,
}

/// The folder that a url names.
#[tactic(auto, unfolding(crate::specs::Locks::dist_url_at))]
fn url(alloc: Global, at: &[u8], token: &[u8], doc: &Doc) -> Result<FolderRef, FieldFault>
    ensures { GivesValue OutOfMemory (dist_url_at (below at.now token.now) (tree_of doc.now)) result }
{
    let text = text(alloc, at, token, doc)?;
    let folder = folder(alloc, at, token, text)?;
    if begins_with_slash(text) {
        Err(not_offered(alloc, at, token))
    } else {
        Ok(folder)
    }
}

#[tactic(auto, unfolding(crate::specs::Locks::dist_url_of))]
fn url_of(alloc: Global, at: &[u8], pairs: &[(Name, Doc)]) -> Result<FolderRef, FieldFault>
    ensures { GivesValue OutOfMemory (dist_url_of at.now (map pair_of pairs.now)) result }
{
    let token = Key::Url.text();
    match value(pairs, Key::Url) {
        None => Err(bad_field(alloc, at, token)),
        Some(doc) => url(alloc, at, token, doc),
    }
}

/// The reference, empty where it is missing.
#[tactic(auto, unfolding(crate::specs::Locks::reference_of))]
fn reference_of(alloc: Global, at: &[u8], pairs: &[(Name, Doc)]) -> Result<Text, FieldFault>
    ensures { GivesValue OutOfMemory (reference_of at.now (map pair_of pairs.now)) result }
{
    match value(pairs, Key::Reference) {
        None => Ok(Text::of(Vec::new(alloc))),
        Some(doc) => owned_text(alloc, at, Key::Reference.text(), doc),
    }
}

#[tactic(auto, unfolding(crate::specs::Locks::dist_from))]
fn dist_from(alloc: Global, at: &[u8], pairs: &[(Name, Doc)]) -> Result<Dist, FieldFault>
    ensures { GivesValue OutOfMemory (dist_from at.now (map pair_of pairs.now)) result }
{
    path_type(alloc, at, pairs)?;
    let url = url_of(alloc, at, pairs)?;
    let reference = reference_of(alloc, at, pairs)?;
    Ok(Dist { url, reference })
}

#[tactic(auto, unfolding(crate::specs::Locks::dist_at))]
fn dist_at(alloc: Global, at: &[u8], doc: &Doc) -> Result<Dist, FieldFault>
    ensures { GivesValue OutOfMemory (dist_at at.now (tree_of doc.now)) result }
{
    let pairs = object(alloc, at, doc)?;
    dist_from(alloc, at, pairs)
}

/// What `dist` says, which must be there.
#[tactic(auto, unfolding(crate::specs::Locks::dist_of))]
pub(crate) fn dist_of(alloc: Global, at: &[u8], pairs: &[(Name, Doc)]) -> Result<Dist, FieldFault>
    ensures { GivesValue OutOfMemory (dist_of at.now (map pair_of pairs.now)) result }
{
    match value(pairs, Key::Dist) {
        None => Err(bad_field(alloc, at, Key::Dist.text())),
        Some(doc) => {
            let pointer = below(alloc, at, Key::Dist.text())?;
            dist_at(alloc, pointer.as_slice(), doc)
        }
    }
}
