//! Folders walked.

ghost use Rattle.std.specs.Prelude.{◌≡◌, ◌++◌, ◌≤◌, [], ◌∷◌, true, IsTrue, is_some, length};
ghost use Rattle.path_name.specs.Paths.{is_segment};
ghost use Rattle.tree_dev.specs.Trees.{IsListing, entry_at, names_in};
ghost use Rattle.tree_dev.specs.Device.{OfTold, OnlyRead};
ghost use Rattle.class_walk.specs.Walks.{each_walked, is_reached};
ghost use Rattle.class_walk.specs.Faults.{Goes, is_device_fault};
ghost use Rattle.class_walk.specs.Searches.{IsNoFile, child_reached, folder_goes, names_reached, reached_below, search_of};

use crate::entry::{list_names, look};
use crate::fault::WalkFault;
use crate::search::{Search, Walked, is_hidden, is_skipped};
use path_name::{Name, Path};
use std::alloc::Global;
use tree_dev::Tree;

/// Walks an entry, and what lies below it.
#[cycle(walk)]
fn walk_entry<T: Tree>(
    alloc: Global,
    tree: &mut T,
    search: &Search<'_>,
    at: &Path,
    tail: &Path,
    walked: &mut Walked,
) -> Result<(), WalkFault>
    requires place { at.now ≡ search.now.job.now.at ++ tail.now }
    requires reached { is_reached search.now.job.now tail.now ≡ true }
    requires there { OfTold (T.meaning tree.old) (λ t. is_some (entry_at t at.now) ≡ true) }
    ensures only_read { OnlyRead (T.meaning tree.old) (T.meaning tree.new) (is_device_fault result) }
    ensures exact { OfTold (T.meaning tree.old) (λ t. Goes (each_walked t (search_of search.now) (tail.now ∷ reached_below t search.now.job.now tail.now))
        walked.old.found.items walked.old.left walked.new.found.items walked.new.left result) }
    ensures entries { walked.new.left ≤ walked.old.left }
{
    if look(alloc, tree, search, at, tail, walked)? {
        walk_folder(alloc, tree, search, at, tail, walked)
    } else {
        Ok(())
    }
}

/// Walks what lies below a folder, which is listed.
#[cycle(walk)]
pub fn walk_folder<T: Tree>(
    alloc: Global,
    tree: &mut T,
    search: &Search<'_>,
    at: &Path,
    tail: &Path,
    walked: &mut Walked,
) -> Result<(), WalkFault>
    requires place { at.now ≡ search.now.job.now.at ++ tail.now }
    requires reached { is_reached search.now.job.now tail.now ≡ true }
    requires levels { length tail.now ≤ 64 }
    requires no_file { OfTold (T.meaning tree.old) (λ t. IsNoFile t at.now) }
    ensures only_read { OnlyRead (T.meaning tree.old) (T.meaning tree.new) (is_device_fault result) }
    ensures exact { OfTold (T.meaning tree.old) (λ t. Goes (folder_goes t (search_of search.now) tail.now)
        walked.old.found.items walked.old.left walked.new.found.items walked.new.left result) }
    ensures entries { walked.new.left ≤ walked.old.left }
{
    let names = list_names(alloc, tree, at, walked)?;
    walk_names(alloc, tree, search, tail, names.as_slice(), walked)
}

/// Walks the entries of these names in a folder.
#[cycle(walk)]
fn walk_names<T: Tree>(
    alloc: Global,
    tree: &mut T,
    search: &Search<'_>,
    tail: &Path,
    names: &[Name],
    walked: &mut Walked,
) -> Result<(), WalkFault>
    requires reached { is_reached search.now.job.now tail.now ≡ true }
    requires levels { length tail.now ≤ 64 }
    requires listing { IsListing names.now }
    requires names { OfTold (T.meaning tree.old) (λ t. names.now ≡ names_in t (search.now.job.now.at ++ tail.now)) }
    ensures only_read { OnlyRead (T.meaning tree.old) (T.meaning tree.new) (is_device_fault result) }
    ensures exact { OfTold (T.meaning tree.old) (λ t. Goes (each_walked t (search_of search.now) (names_reached t search.now.job.now tail.now names.now))
        walked.old.found.items walked.old.left walked.new.found.items walked.new.left result) }
    ensures entries { walked.new.left ≤ walked.old.left }
{
    for name in names {
        walk_name(alloc, tree, search, tail, name.as_slice(), walked)?;
    }
    Ok(())
}

/// Walks the entry of a name in a folder, unless it is passed over.
#[cycle(walk)]
fn walk_name<T: Tree>(
    alloc: Global,
    tree: &mut T,
    search: &Search<'_>,
    tail: &Path,
    name: &[u8],
    walked: &mut Walked,
) -> Result<(), WalkFault>
    requires reached { is_reached search.now.job.now tail.now ≡ true }
    requires levels { length tail.now ≤ 64 }
    requires segment { IsTrue (is_segment name.now) }
    requires there { OfTold (T.meaning tree.old) (λ t. is_some (entry_at t (search.now.job.now.at ++ (tail.now ++ name.now ∷ []))) ≡ true) }
    ensures only_read { OnlyRead (T.meaning tree.old) (T.meaning tree.new) (is_device_fault result) }
    ensures exact { OfTold (T.meaning tree.old) (λ t. Goes (each_walked t (search_of search.now) (child_reached t search.now.job.now tail.now name.now))
        walked.old.found.items walked.old.left walked.new.found.items walked.new.left result) }
    ensures entries { walked.new.left ≤ walked.old.left }
{
    if is_hidden(name) {
        return Ok(());
    }
    let tail = tail.child(alloc, name)?;
    let at = search.job.at.join(alloc, &tail)?;
    if is_skipped(search.job.skip.as_slice(), &at) {
        return Ok(());
    }
    walk_entry(alloc, tree, search, &at, &tail, walked)
}
