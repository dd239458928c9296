//! Path repositories.

ghost use Rattle.std.specs.Prelude.{◌≡◌, ℕ, map, Ok, Some};
ghost use Rattle.std.specs.List.{enumerate_from, list_any, list_all};
ghost use Rattle.std.specs.Option.{option_copied};
ghost use Rattle.path_name.specs.Given.{Gives, GivesValue};
ghost use Rattle.json_ordered.specs.JsonTree.{JsonTree};
ghost use Rattle.json_ordered.specs.JsonParts.{boolean_in};
ghost use Rattle.json_ordered.specs.Docs.{tree_of, pair_of};
ghost use Rattle.manifest_read.specs.declared.fault.FieldFault.TheVariants.{OutOfMemory};
ghost use Rattle.manifest_read.specs.Pointers.{below, at_item};
ghost use Rattle.manifest_read.specs.Autoloads.{is_star};
ghost use Rattle.manifest_read.specs.Repositories.{folder_at, begins_with_slash, is_installed_segment, is_own_path, is_own_folder, is_pattern, is_offered_url, url_at, url_of, is_path_type, path_type_of, absent_at, options_at, options_of, plain_at, is_false, is_packagist_off, is_only_packagist_off, repository_at, entry_at, named_entry_at, each_there, repositories_in, repositories_of};

use crate::fault::FieldFault;
use crate::key::Key;
use crate::pointer::{bad_field, below, not_offered};
use crate::types::Repository;
use crate::values::{items, object, owned_text, value};
use itoa::Buffer;
use json_ordered::Doc;
use path_name::{FolderRef, Items, Name, PathFault};
use std::alloc::Global;

/// The folder that a url names. Refuses `BadField` where the url is not UTF-8 or has a NUL.
#[tactic(auto, unfolding(crate::specs::Repositories::folder_at))]
pub fn folder(alloc: Global, at: &[u8], token: &[u8], text: &[u8]) -> Result<FolderRef, FieldFault>
    ensures { GivesValue OutOfMemory (folder_at (below at.now token.now) text.now) result }
{
    match FolderRef::read(alloc, text) {
        Ok(folder) => Ok(folder),
        Err(PathFault::BadSegment(_)) => Err(bad_field(alloc, at, token)),
        Err(PathFault::AboveRoot(_)) => Err(bad_field(alloc, at, token)),
        Err(PathFault::OutOfMemory) => Err(FieldFault::OutOfMemory),
    }
}

/// Whether a url is counted from the root of the file system.
pub fn begins_with_slash(text: &[u8]) -> bool
    ensures { result ≡ begins_with_slash text.now }
{
    match text {
        [] => false,
        [first, ..] => *first == b'/',
    }
}

#[tactic(auto, unfolding(crate::specs::Repositories::is_installed_segment))]
fn is_installed_segment(segment: &[u8]) -> bool
    ensures { result ≡ is_installed_segment segment.now }
{
    segment == b"vendor".as_slice() || segment == b".install".as_slice()
}

fn is_own_path(segments: &[Name]) -> bool
    ensures { result ≡ is_own_path segments.now }
{
    match segments {
        [] => true,
        [first, ..] => is_installed_segment(first.as_slice()),
    }
}

fn has_star(text: &[u8]) -> bool
    ensures { result ≡ list_any is_star text.now }
{
    text.iter().any(|byte| *byte == b'*')
}

/// Whether each `*` of a segment stands alone in it.
#[tactic(auto, unfolding(crate::specs::Repositories::is_pattern))]
fn is_pattern(segment: &[u8]) -> bool
    ensures { result ≡ is_pattern segment.now }
{
    segment == b"*".as_slice() || !has_star(segment)
}

fn are_patterns(segments: &[Name]) -> bool
    ensures { result ≡ list_all is_pattern segments.now }
{
    segments
        .iter()
        .all(|segment| is_pattern(segment.as_slice()))
}

/// Whether a url may be a repository's, by its text, how far it leads up, and its segments.
#[tactic(auto, unfolding(crate::specs::Repositories::is_offered_url, crate::specs::Repositories::is_own_folder))]
fn is_offered_url(text: &[u8], up: u64, segments: &[Name]) -> bool
    ensures { result ≡ is_offered_url text.now (record { up = up; path = segments.now }) }
{
    !begins_with_slash(text) && !(up == 0 && is_own_path(segments)) && are_patterns(segments)
}

/// The repository of a url.
#[tactic(auto, unfolding(crate::specs::Repositories::url_at))]
fn url(alloc: Global, at: &[u8], token: &[u8], doc: &Doc) -> Result<Repository, FieldFault>
    ensures { GivesValue OutOfMemory (url_at (below at.now token.now) (tree_of doc.now)) result }
{
    let written = owned_text(alloc, at, token, doc)?;
    let folder = folder(alloc, at, token, written.as_slice())?;
    let segments = folder.path.segments(alloc)?;
    if !is_offered_url(written.as_slice(), folder.up, segments.as_slice()) {
        return Err(not_offered(alloc, at, token));
    }
    Ok(Repository {
        up: folder.up,
        segments: Items::of(segments),
        written,
    })
}

/// The repository of an entry's url.
#[tactic(auto, unfolding(crate::specs::Repositories::url_of))]
fn entry_url(alloc: Global, at: &[u8], pairs: &[(Name, Doc)]) -> Result<Repository, FieldFault>
    ensures { GivesValue OutOfMemory (url_of at.now (map pair_of pairs.now)) result }
{
    let token = Key::Url.text();
    match value(pairs, Key::Url) {
        None => Err(bad_field(alloc, at, token)),
        Some(doc) => url(alloc, at, token, doc),
    }
}

#[tactic(auto, unfolding(crate::specs::Repositories::is_path_type))]
fn is_path_type(text: Option<&[u8]>) -> bool
    ensures { result ≡ is_path_type (option_copied text.entry) }
{
    match text {
        None => false,
        Some(text) => text == b"path".as_slice(),
    }
}

/// That an entry's type is `path`. Refuses `BadField` where there is none, and `NotOffered` where it is anything else.
#[tactic(auto, unfolding(crate::specs::Repositories::path_type_of))]
pub fn path_type(alloc: Global, at: &[u8], pairs: &[(Name, Doc)]) -> Result<(), FieldFault>
    ensures { GivesValue OutOfMemory (path_type_of at.now (map pair_of pairs.now)) result }
{
    let token = Key::Type.text();
    match value(pairs, Key::Type) {
        None => Err(bad_field(alloc, at, token)),
        Some(doc) => {
            if is_path_type(doc.as_str()) {
                Ok(())
            } else {
                Err(not_offered(alloc, at, token))
            }
        }
    }
}

/// That a key is missing.
#[tactic(auto, unfolding(crate::specs::Repositories::absent_at))]
pub(crate) fn absent(
    alloc: Global,
    at: &[u8],
    pairs: &[(Name, Doc)],
    key: Key,
) -> Result<(), FieldFault>
    ensures { GivesValue OutOfMemory (absent_at at.now (map pair_of pairs.now) key) result }
{
    match value(pairs, key) {
        None => Ok(()),
        Some(_) => Err(not_offered(alloc, at, key.text())),
    }
}

#[tactic(auto, unfolding(crate::specs::Repositories::options_at))]
fn options_in(alloc: Global, at: &[u8], doc: &Doc) -> Result<(), FieldFault>
    ensures { GivesValue OutOfMemory (options_at at.now (tree_of doc.now)) result }
{
    let pairs = object(alloc, at, doc)?;
    absent(alloc, at, pairs, Key::Versions)?;
    absent(alloc, at, pairs, Key::Reference)
}

#[tactic(auto, unfolding(crate::specs::Repositories::options_of))]
fn options(alloc: Global, at: &[u8], pairs: &[(Name, Doc)]) -> Result<(), FieldFault>
    ensures { GivesValue OutOfMemory (options_of at.now (map pair_of pairs.now)) result }
{
    match value(pairs, Key::Options) {
        None => Ok(()),
        Some(doc) => {
            let pointer = below(alloc, at, Key::Options.text())?;
            options_in(alloc, pointer.as_slice(), doc)
        }
    }
}

/// That an entry has no key that would change which packages it gives.
#[tactic(auto, unfolding(crate::specs::Repositories::plain_at))]
fn plain(alloc: Global, at: &[u8], pairs: &[(Name, Doc)]) -> Result<(), FieldFault>
    ensures { GivesValue OutOfMemory (plain_at at.now (map pair_of pairs.now)) result }
{
    absent(alloc, at, pairs, Key::Canonical)?;
    absent(alloc, at, pairs, Key::Only)?;
    absent(alloc, at, pairs, Key::Exclude)?;
    options(alloc, at, pairs)
}

fn is_false(value: Option<bool>) -> bool
    ensures { result ≡ is_false value }
{
    match value {
        None => false,
        Some(value) => !value,
    }
}

/// Whether this is the value false.
pub(crate) fn is_false_value(doc: &Doc) -> bool
    ensures { result ≡ is_false (boolean_in (tree_of doc.now)) }
{
    is_false(doc.as_bool())
}

/// Whether a pair switches packagist off.
#[tactic(auto, unfolding(crate::specs::Repositories::is_packagist_off))]
fn is_packagist_off(pair: &(Name, Doc)) -> bool
    ensures { result ≡ is_packagist_off (pair_of pair.now) }
{
    let name = pair.0.as_slice();
    (name == Key::Packagist.text() || name == Key::PackagistOrg.text()) && is_false_value(&pair.1)
}

fn is_only_packagist_off(pairs: &[(Name, Doc)]) -> bool
    ensures { result ≡ is_only_packagist_off (map pair_of pairs.now) }
{
    match pairs {
        [pair] => is_packagist_off(pair),
        _ => false,
    }
}

/// The repository of an entry, by its pairs.
#[tactic(auto, unfolding(crate::specs::Repositories::repository_at))]
fn repository(
    alloc: Global,
    at: &[u8],
    pairs: &[(Name, Doc)],
) -> Result<Option<Repository>, FieldFault>
    ensures { GivesValue OutOfMemory (repository_at at.now (map pair_of pairs.now)) result }
{
    path_type(alloc, at, pairs)?;
    let repository = entry_url(alloc, at, pairs)?;
    plain(alloc, at, pairs)?;
    Ok(Some(repository))
}

/// The repository of an entry that stands at a pointer. None: it is skipped.
#[tactic(auto, unfolding(crate::specs::Repositories::entry_at))]
fn entry(alloc: Global, at: &[u8], doc: &Doc) -> Result<Option<Repository>, FieldFault>
    ensures { GivesValue OutOfMemory (entry_at at.now (tree_of doc.now)) result }
{
    let pairs = object(alloc, at, doc)?;
    if is_only_packagist_off(pairs) {
        return Ok(None);
    }
    repository(alloc, at, pairs)
}

/// The repository of the i-th entry.
fn item_entry(
    alloc: Global,
    at: &[u8],
    i: usize,
    doc: &Doc,
) -> Result<Option<Repository>, FieldFault>
    ensures { GivesValue OutOfMemory (entry_at (at_item at.now i) (tree_of doc.now)) result }
{
    let mut digits = Buffer::new();
    let pointer = below(alloc, at, digits.format(i).as_bytes())?;
    entry(alloc, pointer.as_slice(), doc)
}

/// The repository of a named entry.
#[tactic(auto, unfolding(crate::specs::Repositories::named_entry_at))]
fn named_entry(
    alloc: Global,
    at: &[u8],
    pair: &(Name, Doc),
) -> Result<Option<Repository>, FieldFault>
    ensures { GivesValue OutOfMemory (named_entry_at at.now (pair_of pair.now)) result }
{
    if is_packagist_off(pair) {
        return Ok(None);
    }
    let pointer = below(alloc, at, pair.0.as_slice())?;
    entry(alloc, pointer.as_slice(), &pair.1)
}

/// The repositories of an array.
fn listed(alloc: Global, at: &[u8], items: &[Doc]) -> Result<Items<Repository>, FieldFault>
    ensures { GivesValue OutOfMemory (each_there (λ (n : ℕ × JsonTree). entry_at (at_item at.now n.0) n.1) (enumerate_from 0 (map tree_of items.now))) result }
{
    let mut repositories = Vec::with_capacity(alloc, items.len())?;
    for (i, item) in items.iter().enumerate() {
        if let Some(repository) = item_entry(alloc, at, i, item)? {
            repositories.push(repository)?;
        }
    }
    Ok(Items::of(repositories))
}

/// The repositories of an object.
fn named(alloc: Global, at: &[u8], pairs: &[(Name, Doc)]) -> Result<Items<Repository>, FieldFault>
    ensures { GivesValue OutOfMemory (each_there (named_entry_at at.now) (map pair_of pairs.now)) result }
{
    let mut repositories = Vec::with_capacity(alloc, pairs.len())?;
    for pair in pairs {
        if let Some(repository) = named_entry(alloc, at, pair)? {
            repositories.push(repository)?;
        }
    }
    Ok(Items::of(repositories))
}

#[tactic(auto, unfolding(crate::specs::Repositories::repositories_in))]
fn repositories_in(alloc: Global, at: &[u8], doc: &Doc) -> Result<Items<Repository>, FieldFault>
    ensures { GivesValue OutOfMemory (repositories_in at.now (tree_of doc.now)) result }
{
    match items(doc) {
        Some(items) => listed(alloc, at, items),
        None => {
            let pairs = object(alloc, at, doc)?;
            named(alloc, at, pairs)
        }
    }
}

/// The path repositories of `repositories`; none where it is missing.
#[tactic(auto, unfolding(crate::specs::Repositories::repositories_of))]
pub(crate) fn repositories(
    alloc: Global,
    at: &[u8],
    pairs: &[(Name, Doc)],
) -> Result<Items<Repository>, FieldFault>
    ensures { GivesValue OutOfMemory (repositories_of at.now (map pair_of pairs.now)) result }
{
    match value(pairs, Key::Repositories) {
        None => Ok(Items::of(Vec::new(alloc))),
        Some(doc) => {
            let pointer = below(alloc, at, Key::Repositories.text())?;
            repositories_in(alloc, pointer.as_slice(), doc)
        }
    }
}
