//! One entry looked at.

ghost use Rattle.std.specs.Prelude.{◌≡◌, ◌++◌, ◌≤◌, true, IfOk, OnOk, is_some, length};
ghost use Rattle.tree_dev.specs.Trees.{IsListing, entry_at};
ghost use Rattle.tree_dev.specs.Device.{OfTold, OnlyRead};
ghost use Rattle.class_walk.specs.Faults.{is_device_fault};
ghost use Rattle.class_walk.specs.Searches.{Adds, Asks, Looks, Lists, Reads, RefusesDeep, search_of};

use crate::counted::counted_names;
use crate::fault::WalkFault;
use crate::job::Scanned;
use crate::search::{Search, Walked, is_scanned};
use path_name::{Items, Name, Path, Text};
use std::alloc::{AllocError, Global};
use tree_dev::{FILE_BYTES, Kind, LimitKind, ListAnswer, ReadAnswer, Tree};

/// How many segments an entry may lie below the folder of its walk.
const LEVELS: usize = 64;

/// The bytes of a file that is scanned. None: something else is there. `Limit`: it is too long. `Vanished`: nothing is there.
pub fn read_file<T: Tree>(alloc: Global, tree: &mut T, at: &Path) -> Result<Option<Text>, WalkFault>
    ensures only_read { OnlyRead (T.meaning tree.old) (T.meaning tree.new) (is_device_fault result) }
    ensures answer { OfTold (T.meaning tree.old) (λ t. Reads t at.now result) }
{
    match tree.read(alloc, at, FILE_BYTES)? {
        ReadAnswer::Bytes(bytes) => Ok(Some(bytes)),
        ReadAnswer::NotFile => Ok(None),
        ReadAnswer::TooLong => Err(WalkFault::Limit(LimitKind::FileBytes(at.copy(alloc)?))),
        ReadAnswer::Absent => Err(WalkFault::Vanished(at.copy(alloc)?)),
    }
}

/// Adds a file that was read. Its one refusal is want of memory.
pub fn add_file(
    alloc: Global,
    search: &Search<'_>,
    tail: &Path,
    text: &[u8],
    walked: &mut Walked,
) -> Result<(), AllocError>
    ensures found { OnOk result (Adds (search_of search.now) tail.now text.now walked.old.found.items walked.new.found.items) }
    ensures left { walked.new.left ≡ walked.old.left }
{
    let names = counted_names(alloc, &search.job.rule, tail, text)?;
    walked.found.push(Scanned {
        job: search.number,
        shown: search.job.shown.join(alloc, tail)?,
        names,
    })?;
    Ok(())
}

/// Looks at an entry, and scans it where it is a file that is scanned. True: it is no file, and is to be listed. A file
/// that is scanned is read at once, without being asked for its kind.
pub fn look<T: Tree>(
    alloc: Global,
    tree: &mut T,
    search: &Search<'_>,
    at: &Path,
    tail: &Path,
    walked: &mut Walked,
) -> Result<bool, WalkFault>
    requires place { at.now ≡ search.now.job.now.at ++ tail.now }
    requires there { OfTold (T.meaning tree.old) (λ t. is_some (entry_at t at.now) ≡ true) }
    ensures only_read { OnlyRead (T.meaning tree.old) (T.meaning tree.new) (is_device_fault result) }
    ensures answer { OfTold (T.meaning tree.old) (λ t. Looks t (search_of search.now) tail.now walked.old.found.items walked.old.left walked.new.found.items walked.new.left result) }
    ensures left { walked.new.left ≡ walked.old.left }
    ensures levels { IfOk result (λ _. length tail.now ≤ 64) }
{
    if tail.depth() > LEVELS {
        return refuse_deep(alloc, tree, at);
    }
    if !is_scanned(alloc, search, at, tail)? {
        return is_listed(alloc, tree, at);
    }
    match read_file(alloc, tree, at)? {
        Some(bytes) => {
            add_file(alloc, search, tail, bytes.as_slice(), walked)?;
            Ok(false)
        }
        None => Ok(true),
    }
}

/// Why an entry that lies too deep is not walked.
fn refuse_deep<T: Tree>(alloc: Global, tree: &mut T, at: &Path) -> Result<bool, WalkFault>
    ensures only_read { OnlyRead (T.meaning tree.old) (T.meaning tree.new) (is_device_fault result) }
    ensures answer { OfTold (T.meaning tree.old) (λ t. RefusesDeep at.now (entry_at t at.now) result) }
    ensures refused { IfOk result (λ _. ⊥) }
{
    match tree.stat(at)? {
        Kind::Absent => Err(WalkFault::Vanished(at.copy(alloc)?)),
        Kind::Other => Err(WalkFault::OtherEntry(at.copy(alloc)?)),
        Kind::File => Err(WalkFault::Limit(LimitKind::Depth(at.copy(alloc)?))),
        Kind::Folder => Err(WalkFault::Limit(LimitKind::Depth(at.copy(alloc)?))),
    }
}

/// Whether an entry that is not scanned is a folder. `OtherEntry`: it is neither a file nor a folder.
fn is_listed<T: Tree>(alloc: Global, tree: &mut T, at: &Path) -> Result<bool, WalkFault>
    ensures only_read { OnlyRead (T.meaning tree.old) (T.meaning tree.new) (is_device_fault result) }
    ensures answer { OfTold (T.meaning tree.old) (λ t. Asks at.now (entry_at t at.now) result) }
{
    match tree.stat(at)? {
        Kind::Absent => Err(WalkFault::Vanished(at.copy(alloc)?)),
        Kind::Other => Err(WalkFault::OtherEntry(at.copy(alloc)?)),
        Kind::File => Ok(false),
        Kind::Folder => Ok(true),
    }
}

/// The names of a folder, which are counted. `OtherEntry`: something else is there. `Vanished`: nothing is. `Limit`: it has
/// more names than may still be listed.
pub fn list_names<T: Tree>(
    alloc: Global,
    tree: &mut T,
    at: &Path,
    walked: &mut Walked,
) -> Result<Items<Name>, WalkFault>
    ensures only_read { OnlyRead (T.meaning tree.old) (T.meaning tree.new) (is_device_fault result) }
    ensures listing { IfOk result IsListing }
    ensures answer { OfTold (T.meaning tree.old) (λ t. Lists t at.now walked.old.left walked.new.left result) }
    ensures found { walked.new.found.items ≡ walked.old.found.items }
    ensures entries { walked.new.left ≤ walked.old.left }
{
    match tree.list(alloc, at, walked.left)? {
        ListAnswer::Names(names) => {
            if walked.take_entries(names.as_slice()) {
                Ok(names)
            } else {
                Err(WalkFault::Limit(LimitKind::Entries))
            }
        }
        ListAnswer::TooMany => Err(WalkFault::Limit(LimitKind::Entries)),
        ListAnswer::Absent => Err(WalkFault::Vanished(at.copy(alloc)?)),
        ListAnswer::NotFolder => Err(WalkFault::OtherEntry(at.copy(alloc)?)),
    }
}
