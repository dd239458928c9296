//! Autoload rules.

ghost use Rattle.std.specs.Prelude.{◌≡◌, ℕ, [], ◌∷◌, true, false, map, Ok};
ghost use Rattle.std.specs.List.{enumerate_from, list_any};
ghost use Rattle.path_name.specs.Given.{Gives, GivesValue};
ghost use Rattle.json_ordered.specs.JsonTree.{JsonTree};
ghost use Rattle.json_ordered.specs.Docs.{tree_of, pair_of};
ghost use Rattle.manifest_read.specs.declared.fault.FieldFault.TheVariants.{OutOfMemory};
ghost use Rattle.manifest_read.specs.Pointers.{below, at_item};
ghost use Rattle.manifest_read.specs.Values.{text_at, each};
ghost use Rattle.manifest_read.specs.Autoloads.{is_star, path_at, is_written_segment, is_in_written, is_barred, is_offered, path_text_at, path_texts_at, paths_in, paths_of, without_backslashes, is_psr4_prefix, is_prefix, prefix_at, folders_at, prefix_dirs_at, prefixes_in, standard_key, prefixes_of, texts_in, texts_of, no_rules, rules_in, autoload_in, autoload_of};

use crate::fault::FieldFault;
use crate::key::Key;
use crate::pointer::{bad_field, below, not_offered};
use crate::types::{Autoload, PathText, PrefixDirs, Role};
use crate::values::{items, list, object, owned_text, value};
use itoa::Buffer;
use json_ordered::Doc;
use path_name::{Items, Name, Path, PathFault, Text};
use std::alloc::Global;

/// Which standard a prefix is for.
#[derive(Clone, Copy)]
pub(crate) enum Standard {
    Psr4,
    Psr0,
}

/// The folders of a prefix.
#[derive(Drop)]
pub(crate) struct Folders {
    pub folders: Items<PathText>,
    pub single: bool,
}

/// The path of a text.
#[tactic(auto, unfolding(crate::specs::Autoloads::path_at))]
fn path(alloc: Global, at: &[u8], token: &[u8], text: &[u8]) -> Result<Path, FieldFault>
    ensures { GivesValue OutOfMemory (path_at (below at.now token.now) text.now) result }
{
    match Path::read(alloc, text) {
        Ok(path) => Ok(path),
        Err(PathFault::BadSegment(_)) => Err(bad_field(alloc, at, token)),
        Err(PathFault::AboveRoot(_)) => Err(not_offered(alloc, at, token)),
        Err(PathFault::OutOfMemory) => Err(FieldFault::OutOfMemory),
    }
}

#[tactic(auto, unfolding(crate::specs::Autoloads::is_written_segment))]
fn is_written_segment(segment: &[u8]) -> bool
    ensures { result ≡ is_written_segment segment.now }
{
    segment == b"vendor".as_slice()
        || segment == b".install".as_slice()
        || segment == b"composer.lock".as_slice()
}

/// Whether a path leads into what an install writes in the root's folder.
fn is_in_written(path: &Path) -> bool
    ensures { result ≡ is_in_written path.now }
{
    match path.first() {
        Some(first) => is_written_segment(first),
        None => false,
    }
}

#[tactic(auto, unfolding(crate::specs::Autoloads::is_barred))]
fn is_barred(role: Role, path: &Path) -> bool
    ensures { result ≡ is_barred role path.now }
{
    match role {
        Role::Root => is_in_written(path),
        Role::Member => false,
    }
}

fn has_star(text: &[u8]) -> bool
    ensures { result ≡ list_any is_star text.now }
{
    text.iter().any(|byte| *byte == b'*')
}

#[tactic(auto, unfolding(crate::specs::Autoloads::is_offered))]
fn is_offered(role: Role, starless: bool, path: &PathText) -> bool
    ensures { result ≡ is_offered role starless path.now }
{
    if is_barred(role, &path.path) {
        return false;
    }
    !(starless && has_star(path.written.as_slice()))
}

/// A path of a rule. With `starless` it may have no `*`.
#[tactic(auto, unfolding(crate::specs::Autoloads::path_text_at))]
fn path_text(
    alloc: Global,
    role: Role,
    starless: bool,
    at: &[u8],
    token: &[u8],
    doc: &Doc,
) -> Result<PathText, FieldFault>
    ensures { GivesValue OutOfMemory (path_text_at role starless (below at.now token.now) (tree_of doc.now)) result }
{
    let written = owned_text(alloc, at, token, doc)?;
    let path = path(alloc, at, token, written.as_slice())?;
    let path = PathText { written, path };
    if is_offered(role, starless, &path) {
        Ok(path)
    } else {
        Err(not_offered(alloc, at, token))
    }
}

/// The path that is the i-th item of an array.
fn path_item(
    alloc: Global,
    role: Role,
    starless: bool,
    at: &[u8],
    i: usize,
    doc: &Doc,
) -> Result<PathText, FieldFault>
    ensures { GivesValue OutOfMemory (path_text_at role starless (at_item at.now i) (tree_of doc.now)) result }
{
    let mut digits = Buffer::new();
    path_text(alloc, role, starless, at, digits.format(i).as_bytes(), doc)
}

/// The paths of an array.
#[tactic(auto, unfolding(crate::specs::Autoloads::path_texts_at))]
fn path_texts(
    alloc: Global,
    role: Role,
    starless: bool,
    at: &[u8],
    items: &[Doc],
) -> Result<Items<PathText>, FieldFault>
    ensures { GivesValue OutOfMemory (path_texts_at role starless at.now (map tree_of items.now)) result }
{
    let mut paths = Vec::with_capacity(alloc, items.len())?;
    for (i, item) in items.iter().enumerate() {
        paths.push(path_item(alloc, role, starless, at, i, item)?)?;
    }
    Ok(Items::of(paths))
}

#[tactic(auto, unfolding(crate::specs::Autoloads::paths_in))]
fn paths_in(
    alloc: Global,
    role: Role,
    starless: bool,
    at: &[u8],
    doc: &Doc,
) -> Result<Items<PathText>, FieldFault>
    ensures { GivesValue OutOfMemory (paths_in role starless at.now (tree_of doc.now)) result }
{
    let items = list(alloc, at, doc)?;
    path_texts(alloc, role, starless, at, items)
}

/// The paths of a key; none where it is missing.
#[tactic(auto, unfolding(crate::specs::Autoloads::paths_of))]
fn paths(
    alloc: Global,
    role: Role,
    starless: bool,
    at: &[u8],
    pairs: &[(Name, Doc)],
    key: Key,
) -> Result<Items<PathText>, FieldFault>
    ensures { GivesValue OutOfMemory (paths_of role starless at.now (map pair_of pairs.now) key) result }
{
    match value(pairs, key) {
        None => Ok(Items::of(Vec::new(alloc))),
        Some(doc) => {
            let pointer = below(alloc, at, key.text())?;
            paths_in(alloc, role, starless, pointer.as_slice(), doc)
        }
    }
}

fn without_backslashes(text: &[u8]) -> &[u8]
    ensures { result.now ≡ without_backslashes text.now }
{
    let mut start = 0;
    while start < text.len() && text[start] == b'\\' {
        start += 1;
    }
    &text[start..]
}

#[tactic(auto, unfolding(crate::specs::Autoloads::is_psr4_prefix))]
fn is_psr4_prefix(prefix: &[u8]) -> bool
    ensures { result ≡ is_psr4_prefix prefix.now }
{
    match prefix.last() {
        None => true,
        Some(byte) => *byte == b'\\',
    }
}

#[tactic(auto, unfolding(crate::specs::Autoloads::is_prefix))]
fn is_prefix(standard: Standard, prefix: &[u8]) -> bool
    ensures { result ≡ is_prefix standard prefix.now }
{
    match standard {
        Standard::Psr4 => is_psr4_prefix(prefix),
        Standard::Psr0 => true,
    }
}

/// A prefix without its leading `\`.
#[tactic(auto, unfolding(crate::specs::Autoloads::prefix_at))]
fn prefix(alloc: Global, standard: Standard, at: &[u8], written: &[u8]) -> Result<Name, FieldFault>
    ensures { GivesValue OutOfMemory (prefix_at standard (below at.now written.now) written.now) result }
{
    let prefix = without_backslashes(written);
    if is_prefix(standard, prefix) {
        Ok(Name::of(Vec::from_slice(alloc, prefix)?))
    } else {
        Err(bad_field(alloc, at, written))
    }
}

/// The folders that a list names.
fn listed_folders(
    alloc: Global,
    role: Role,
    at: &[u8],
    token: &[u8],
    items: &[Doc],
) -> Result<Items<PathText>, FieldFault>
    ensures { GivesValue OutOfMemory (path_texts_at role false (below at.now token.now) (map tree_of items.now)) result }
{
    let pointer = below(alloc, at, token)?;
    path_texts(alloc, role, false, pointer.as_slice(), items)
}

/// The one folder that a text names.
fn one_folder(alloc: Global, folder: PathText) -> Result<Folders, FieldFault>
    ensures { GivesValue OutOfMemory (Ok (record { folders = folder ∷ []; single = true })) result }
{
    let mut folders = Vec::with_capacity(alloc, 1)?;
    folders.push(folder)?;
    Ok(Folders {
        folders: Items::of(folders),
        single: true,
    })
}

/// The folders of a prefix: those of a list, or the one that a text names.
#[tactic(auto, unfolding(crate::specs::Autoloads::folders_at))]
fn prefix_folders(
    alloc: Global,
    role: Role,
    at: &[u8],
    token: &[u8],
    doc: &Doc,
) -> Result<Folders, FieldFault>
    ensures { GivesValue OutOfMemory (folders_at role (below at.now token.now) (tree_of doc.now)) result }
{
    match items(doc) {
        Some(items) => Ok(Folders {
            folders: listed_folders(alloc, role, at, token, items)?,
            single: false,
        }),
        None => {
            let folder = path_text(alloc, role, false, at, token, doc)?;
            one_folder(alloc, folder)
        }
    }
}

#[tactic(auto, unfolding(crate::specs::Autoloads::prefix_dirs_at))]
fn prefix_dirs(
    alloc: Global,
    standard: Standard,
    role: Role,
    at: &[u8],
    pair: &(Name, Doc),
) -> Result<PrefixDirs, FieldFault>
    ensures { GivesValue OutOfMemory (prefix_dirs_at standard role at.now (pair_of pair.now)) result }
{
    let token = pair.0.as_slice();
    let prefix = prefix(alloc, standard, at, token)?;
    let folders = prefix_folders(alloc, role, at, token, &pair.1)?;
    let Folders { folders, single } = folders;
    Ok(PrefixDirs {
        written: Text::of(Vec::from_slice(alloc, token)?),
        prefix,
        folders,
        single,
    })
}

fn prefix_rows(
    alloc: Global,
    standard: Standard,
    role: Role,
    at: &[u8],
    pairs: &[(Name, Doc)],
) -> Result<Items<PrefixDirs>, FieldFault>
    ensures { GivesValue OutOfMemory (each (prefix_dirs_at standard role at.now) (map pair_of pairs.now)) result }
{
    let mut rows = Vec::with_capacity(alloc, pairs.len())?;
    for pair in pairs {
        rows.push(prefix_dirs(alloc, standard, role, at, pair)?)?;
    }
    Ok(Items::of(rows))
}

#[tactic(auto, unfolding(crate::specs::Autoloads::prefixes_in))]
fn prefixes_in(
    alloc: Global,
    standard: Standard,
    role: Role,
    at: &[u8],
    doc: &Doc,
) -> Result<Items<PrefixDirs>, FieldFault>
    ensures { GivesValue OutOfMemory (prefixes_in standard role at.now (tree_of doc.now)) result }
{
    let pairs = object(alloc, at, doc)?;
    prefix_rows(alloc, standard, role, at, pairs)
}

fn standard_key(standard: Standard) -> Key
    ensures { result ≡ standard_key standard }
{
    match standard {
        Standard::Psr4 => Key::Psr4,
        Standard::Psr0 => Key::Psr0,
    }
}

/// The prefixes of `psr-4` or `psr-0`; none where it is missing.
#[tactic(auto, unfolding(crate::specs::Autoloads::prefixes_of))]
fn prefixes(
    alloc: Global,
    standard: Standard,
    role: Role,
    at: &[u8],
    pairs: &[(Name, Doc)],
) -> Result<Items<PrefixDirs>, FieldFault>
    ensures { GivesValue OutOfMemory (prefixes_of standard role at.now (map pair_of pairs.now)) result }
{
    let key = standard_key(standard);
    match value(pairs, key) {
        None => Ok(Items::of(Vec::new(alloc))),
        Some(doc) => {
            let pointer = below(alloc, at, key.text())?;
            prefixes_in(alloc, standard, role, pointer.as_slice(), doc)
        }
    }
}

/// The text that is the i-th item of an array.
fn text_item(alloc: Global, at: &[u8], i: usize, doc: &Doc) -> Result<Text, FieldFault>
    ensures { GivesValue OutOfMemory (text_at (at_item at.now i) (tree_of doc.now)) result }
{
    let mut digits = Buffer::new();
    owned_text(alloc, at, digits.format(i).as_bytes(), doc)
}

fn text_items(alloc: Global, at: &[u8], items: &[Doc]) -> Result<Items<Text>, FieldFault>
    ensures { GivesValue OutOfMemory (each (λ (n : ℕ × JsonTree). text_at (at_item at.now n.0) n.1) (enumerate_from 0 (map tree_of items.now))) result }
{
    let mut texts = Vec::with_capacity(alloc, items.len())?;
    for (i, item) in items.iter().enumerate() {
        texts.push(text_item(alloc, at, i, item)?)?;
    }
    Ok(Items::of(texts))
}

#[tactic(auto, unfolding(crate::specs::Autoloads::texts_in))]
fn texts_in(alloc: Global, at: &[u8], doc: &Doc) -> Result<Items<Text>, FieldFault>
    ensures { GivesValue OutOfMemory (texts_in at.now (tree_of doc.now)) result }
{
    let items = list(alloc, at, doc)?;
    text_items(alloc, at, items)
}

/// The texts of a key; none where it is missing.
#[tactic(auto, unfolding(crate::specs::Autoloads::texts_of))]
fn texts(
    alloc: Global,
    at: &[u8],
    pairs: &[(Name, Doc)],
    key: Key,
) -> Result<Items<Text>, FieldFault>
    ensures { GivesValue OutOfMemory (texts_of at.now (map pair_of pairs.now) key) result }
{
    match value(pairs, key) {
        None => Ok(Items::of(Vec::new(alloc))),
        Some(doc) => {
            let pointer = below(alloc, at, key.text())?;
            texts_in(alloc, pointer.as_slice(), doc)
        }
    }
}

/// No rules at all.
#[tactic(auto, unfolding(crate::specs::Autoloads::no_rules))]
pub(crate) fn no_rules(alloc: Global) -> Autoload
    ensures { result ≡ no_rules }
{
    Autoload {
        psr4: Items::of(Vec::new(alloc)),
        psr0: Items::of(Vec::new(alloc)),
        classmap: Items::of(Vec::new(alloc)),
        files: Items::of(Vec::new(alloc)),
        exclude: Items::of(Vec::new(alloc)),
    }
}

/// The rules of an object's keys.
#[tactic(auto, unfolding(crate::specs::Autoloads::rules_in))]
fn rules_in(
    alloc: Global,
    role: Role,
    at: &[u8],
    pairs: &[(Name, Doc)],
) -> Result<Autoload, FieldFault>
    ensures { GivesValue OutOfMemory (rules_in role at.now (map pair_of pairs.now)) result }
{
    let psr4 = prefixes(alloc, Standard::Psr4, role, at, pairs)?;
    let psr0 = prefixes(alloc, Standard::Psr0, role, at, pairs)?;
    let classmap = paths(alloc, role, true, at, pairs, Key::Classmap)?;
    let files = paths(alloc, role, false, at, pairs, Key::Files)?;
    let exclude = texts(alloc, at, pairs, Key::Exclusions)?;
    Ok(Autoload {
        psr4,
        psr0,
        classmap,
        files,
        exclude,
    })
}

#[tactic(auto, unfolding(crate::specs::Autoloads::autoload_in))]
fn autoload_in(alloc: Global, role: Role, at: &[u8], doc: &Doc) -> Result<Autoload, FieldFault>
    ensures { GivesValue OutOfMemory (autoload_in role at.now (tree_of doc.now)) result }
{
    let pairs = object(alloc, at, doc)?;
    rules_in(alloc, role, at, pairs)
}

/// The autoload rules of a key; none where it is missing.
#[tactic(auto, unfolding(crate::specs::Autoloads::autoload_of))]
pub(crate) fn autoload_of(
    alloc: Global,
    role: Role,
    at: &[u8],
    pairs: &[(Name, Doc)],
    key: Key,
) -> Result<Autoload, FieldFault>
    ensures { GivesValue OutOfMemory (autoload_of role at.now (map pair_of pairs.now) key) result }
{
    match value(pairs, key) {
        None => Ok(no_rules(alloc)),
        Some(doc) => {
            let pointer = below(alloc, at, key.text())?;
            autoload_in(alloc, role, pointer.as_slice(), doc)
        }
    }
}
