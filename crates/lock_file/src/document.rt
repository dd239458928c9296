//! The lock of a document.

ghost use Rattle.std.specs.Prelude.{◌≡◌, map, IfOk};
ghost use Rattle.path_name.specs.Given.{GivesValue};
ghost use Rattle.json_ordered.specs.Docs.{tree_of, pair_of};
ghost use Rattle.manifest_read.specs.declared.fault.FieldFault.TheVariants.{OutOfMemory};
ghost use Rattle.manifest_read.specs.Pointers.{below};
ghost use Rattle.manifest_read.specs.Writable.{IsWritten};
ghost use Rattle.lock_file.specs.FormedLocks.{IsLock};
ghost use Rattle.lock_file.specs.Rereading.{IsKept};
ghost use Rattle.lock_file.specs.Locks.{content_hash_of, no_items_or_fault, no_aliases_at, no_aliases_of, lock_from, lock_fields_of};

use crate::lists::{Lists, lists_of};
use crate::rows::{flags_of, platform_links_of};
use crate::types::Lock;
use json_ordered::Doc;
use manifest_read::FieldFault;
use manifest_read::fields::{
    Key, bad_field, below, list, minimum, not_offered, object, owned_text, switch, value,
};
use path_name::{Name, Text};
use std::alloc::Global;

/// The text of `content-hash`, which must be there.
#[tactic(auto, unfolding(crate::specs::Locks::content_hash_of))]
fn content_hash_of(alloc: Global, at: &[u8], pairs: &[(Name, Doc)]) -> Result<Text, FieldFault>
    ensures { GivesValue OutOfMemory (content_hash_of at.now (map pair_of pairs.now)) result }
{
    let token = Key::ContentHash.text();
    match value(pairs, Key::ContentHash) {
        None => Err(bad_field(alloc, at, token)),
        Some(doc) => owned_text(alloc, at, token, doc),
    }
}

/// That the list at the pointer of a key is empty.
#[tactic(auto, unfolding(crate::specs::Locks::no_aliases_at))]
fn no_aliases(alloc: Global, at: &[u8], token: &[u8], doc: &Doc) -> Result<(), FieldFault>
    ensures { GivesValue OutOfMemory (no_aliases_at (below at.now token.now) (tree_of doc.now)) result }
{
    let pointer = below(alloc, at, token)?;
    let items = list(alloc, pointer.as_slice(), doc)?;
    if items.is_empty() {
        Ok(())
    } else {
        Err(not_offered(alloc, at, token))
    }
}

/// That `aliases` is missing or empty.
#[tactic(auto, unfolding(crate::specs::Locks::no_aliases_of))]
fn no_aliases_of(alloc: Global, at: &[u8], pairs: &[(Name, Doc)]) -> Result<(), FieldFault>
    ensures { GivesValue OutOfMemory (no_aliases_of at.now (map pair_of pairs.now)) result }
{
    match value(pairs, Key::Aliases) {
        None => Ok(()),
        Some(doc) => no_aliases(alloc, at, Key::Aliases.text(), doc),
    }
}

#[tactic(auto, unfolding(crate::specs::Locks::lock_from))]
fn lock_from(alloc: Global, at: &[u8], pairs: &[(Name, Doc)]) -> Result<Lock, FieldFault>
    ensures { GivesValue OutOfMemory (lock_from at.now (map pair_of pairs.now)) result }
{
    let content_hash = content_hash_of(alloc, at, pairs)?;
    let lists = lists_of(alloc, at, pairs)?;
    no_aliases_of(alloc, at, pairs)?;
    let minimum = minimum(alloc, at, pairs)?;
    let flags = flags_of(alloc, at, pairs)?;
    let prefer_stable = switch(alloc, at, pairs, Key::PreferStable)?;
    let platform = platform_links_of(alloc, at, pairs, Key::Platform)?;
    let platform_dev = platform_links_of(alloc, at, pairs, Key::PlatformDev)?;
    let Lists {
        packages,
        packages_dev,
    } = lists;
    Ok(Lock {
        content_hash,
        packages,
        packages_dev,
        minimum,
        flags,
        prefer_stable,
        platform,
        platform_dev,
    })
}

/// The lock of the document of a composer.lock.
///
/// The keys are checked in the order `content-hash`, `packages`, `packages-dev`, `aliases`, `minimum-stability`,
/// `stability-flags`, `prefer-stable`, `platform`, `platform-dev`, and inside one the entries in the document's order;
/// the first fault is the answer. The first three must be there; the others have the values of an empty project's lock
/// where they are missing. The keys of a package are `name`, `version`, `dist` and then those of
/// [`package_from_doc`](manifest_read::package_from_doc); `dist` has a `type`, a `url` and maybe a `reference`. Other
/// keys are ignored, and an empty array is taken for an empty object.
///
/// Refuses `BadField(pointer)` where a value has another form than its key asks for, where a key that must be there
/// is missing, and for a package whose name an earlier one has, in both lists together, once it was read;
/// `NotOffered(pointer)` where what is written has a meaning that isn't offered, among these aliases, a `dist` of a
/// type other than `path`, and a url that begins with `/`; and `ReservedName(name)` for a package of such a name.
#[tactic(auto, unfolding(crate::specs::Locks::lock_fields_of))]
pub fn from_doc(alloc: Global, doc: &Doc) -> Result<Lock, FieldFault>
    // The fields, or the first fault.
    ensures exact { GivesValue OutOfMemory (lock_fields_of (tree_of doc.now)) result }
    // Each package is well-formed, and no two have one name.
    ensures formed { IfOk result IsLock }
    // What is read of a JSON text can be written, and is read again then.
    ensures kept { IsWritten (tree_of doc.now) → IfOk result IsKept }
{
    let pairs = object(alloc, b"", doc)?;
    lock_from(alloc, b"", pairs)
}
