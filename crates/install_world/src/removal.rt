//! The removal of a folder with all that is in it.

ghost use Rattle.std.specs.Prelude.{◌≡◌, ◌≢◌, ◌++◌, ◌∷◌, ◌↔◌, [], List, ℕ, false, Contains, IsTrue, None, Some, IfOk, OnOk};
ghost use Rattle.std.specs.BTreeSet.{contains};
ghost use Rattle.std.specs.FinMap as map;
ghost use Rattle.path_name.specs.Orders.{path_cmp};
ghost use Rattle.path_name.specs.Paths.{is_segment};
ghost use Rattle.tree_dev.specs.Device.{OfTold};
ghost use Rattle.tree_dev.specs.declared.entry.Entry.TheVariants as entries;
ghost use Rattle.install_world.specs.Emptied.{AreCovered, IsBare, RemovesLeaf, RemovesLeavesOf, is_vanished};
ghost use Rattle.install_world.specs.InFlight.{IsThere};
ghost use Rattle.install_world.specs.Removals.{Removes, WritesNone, is_device_fault};

use crate::RemoveFault;
use path_name::Path;
use std::alloc::{AllocError, Global};
use std::collections::BTreeSet;
use tree_dev::{Did, ListAnswer, Tree};

/// Removes an entry that is no folder, and puts a folder on a list. Paths on lists are counted from `at`.
fn remove_leaf<T: Tree>(
    alloc: Global,
    tree: &mut T,
    at: &Path,
    folder: &Path,
    name: &[u8],
    ahead: &mut Vec<Path>,
) -> Result<(), RemoveFault>
    requires { IsTrue (is_segment name.now) }
    ensures writes_none { WritesNone (T.meaning tree.old) (T.meaning tree.new) (is_device_fault result) }
    ensures removes { Removes at.now (T.meaning tree.old) (T.meaning tree.new) }
    ensures leaf { OnOk result (OfTold (T.meaning tree.old) (λ t. OfTold (T.meaning tree.new) (λ u. IsThere t (at.now ++ (folder.now ++ name.now ∷ []))
        → RemovesLeaf at.now (folder.now ++ name.now ∷ []) ahead.old.items ahead.new.items t u))) }
    ensures never_vanished { is_vanished result ≡ false }
{
    let entry = folder.child(alloc, name)?;
    let path = at.join(alloc, &entry)?;
    match tree.remove_file(&path)? {
        Did::Done => Ok(()),
        Did::Misplaced => {
            ahead.push(entry)?;
            Ok(())
        }
    }
}

/// Removes all entries of a folder that are no folders, and puts the folders in it on a list.
fn remove_leaves<T: Tree>(
    alloc: Global,
    tree: &mut T,
    at: &Path,
    folder: &Path,
    ahead: &mut Vec<Path>,
) -> Result<(), RemoveFault>
    ensures writes_none { WritesNone (T.meaning tree.old) (T.meaning tree.new) (is_device_fault result) }
    ensures removes { Removes at.now (T.meaning tree.old) (T.meaning tree.new) }
    ensures emptied { OnOk result (OfTold (T.meaning tree.old) (λ t. OfTold (T.meaning tree.new) (RemovesLeavesOf at.now folder.now ahead.old.items ahead.new.items t))) }
    ensures never_vanished { OfTold (T.meaning tree.old) (λ t. map.get t (at.now ++ folder.now) ≡ Some entries.Folder → is_vanished result ≡ false) }
{
    let path = at.join(alloc, folder)?;
    match tree.list(alloc, &path, u32::MAX)? {
        ListAnswer::Names(names) => {
            for name in names.as_slice() {
                remove_leaf(alloc, tree, at, folder, name.as_slice(), ahead)?;
            }
            Ok(())
        }
        _ => Err(RemoveFault::Vanished(path)),
    }
}

/// Removes all entries below the folders of a list that are no folders, and gives all these folders, each before
/// those in it.
fn remove_all_leaves<T: Tree>(
    alloc: Global,
    tree: &mut T,
    at: &Path,
    mut ahead: Vec<Path>,
) -> Result<Vec<Path>, RemoveFault>
    ensures writes_none { WritesNone (T.meaning tree.old) (T.meaning tree.new) (is_device_fault result) }
    ensures removes { Removes at.now (T.meaning tree.old) (T.meaning tree.new) }
    ensures covered { IfOk result (λ emptied. OfTold (T.meaning tree.old) (λ t. AreCovered at.now ahead.items [] t
        → OfTold (T.meaning tree.new) (AreCovered at.now [] emptied.items))) }
    ensures folders { OnOk result (OfTold (T.meaning tree.old) (λ t. OfTold (T.meaning tree.new) (λ u. (path : List (List ℕ))
        → map.get t path ≡ Some entries.Folder → map.get u path ≡ Some entries.Folder))) }
    ensures never_vanished { OfTold (T.meaning tree.old) (λ t. AreCovered at.now ahead.items [] t → is_vanished result ≡ false) }
{
    let mut emptied = Vec::new(alloc);
    'folders: while let Some(folder) = ahead.pop() {
        remove_leaves(alloc, tree, at, &folder, &mut ahead)?;
        emptied.push(folder)?;
    }
    Ok(emptied)
}

/// Removes the folder at a path.
fn remove_empty<T: Tree>(alloc: Global, tree: &mut T, path: &Path) -> Result<(), RemoveFault>
    ensures writes_none { WritesNone (T.meaning tree.old) (T.meaning tree.new) (is_device_fault result) }
    ensures removes { Removes path.now (T.meaning tree.old) (T.meaning tree.new) }
    ensures gone { OnOk result (OfTold (T.meaning tree.new) (λ t. map.get t path.now ≡ None)) }
    ensures others { OnOk result (OfTold (T.meaning tree.old) (λ t. OfTold (T.meaning tree.new) (λ u. (other : List (List ℕ)) → other ≢ path.now
        → map.get u other ≡ map.get t other))) }
    ensures never_vanished { OfTold (T.meaning tree.old) (λ t. IsBare path.now t → is_vanished result ≡ false) }
{
    match tree.remove_dir(path)? {
        Did::Done => Ok(()),
        Did::Misplaced => Err(RemoveFault::Vanished(path.copy(alloc)?)),
    }
}

/// The paths of a list in their order, each once, so that a folder stands before those in it.
fn in_order(alloc: Global, mut folders: Vec<Path>) -> Result<BTreeSet<Path>, AllocError>
    ensures { IfOk result (λ ordered. (path : List (List ℕ)) → IsTrue (contains path_cmp ordered path) ↔ Contains folders.items path) }
{
    let mut ordered = BTreeSet::new(alloc);
    'folders: while let Some(folder) = folders.pop() {
        ordered.insert(folder)?;
    }
    Ok(ordered)
}

/// Removes the folders of a list, each after those in it.
fn remove_folders<T: Tree>(
    alloc: Global,
    tree: &mut T,
    at: &Path,
    folders: Vec<Path>,
) -> Result<(), RemoveFault>
    ensures writes_none { WritesNone (T.meaning tree.old) (T.meaning tree.new) (is_device_fault result) }
    ensures removes { Removes at.now (T.meaning tree.old) (T.meaning tree.new) }
    ensures bare { OnOk result (OfTold (T.meaning tree.old) (λ t. AreCovered at.now [] folders.items t → map.get t at.now ≡ Some entries.Folder
        → OfTold (T.meaning tree.new) (IsBare at.now))) }
    ensures never_vanished { OfTold (T.meaning tree.old) (λ t. AreCovered at.now [] folders.items t → map.get t at.now ≡ Some entries.Folder → is_vanished result ≡ false) }
{
    let mut ordered = in_order(alloc, folders)?;
    'folders: while let Some(folder) = ordered.pop_last() {
        let path = at.join(alloc, &folder)?;
        remove_empty(alloc, tree, &path)?;
    }
    Ok(())
}

/// Removes a folder with all that is in it: first all entries that are no folders, then the folders, each after those in
/// it. Nothing else changes, whatever happens. `Vanished(path)`: what earlier calls showed at a path is no longer there, or
/// a folder has entries that were not listed. `DeviceFault` comes only where the device's count of faults rose. It takes
/// memory for the paths of the folders, and goes down no deeper for deep ones. Of each entry one call is made, and of each
/// folder three. Over a tree that tells, `Vanished` comes only where no folder is at the path.
pub fn remove_folder<T: Tree>(alloc: Global, tree: &mut T, at: &Path) -> Result<(), RemoveFault>
    ensures writes_none { WritesNone (T.meaning tree.old) (T.meaning tree.new) (is_device_fault result) }
    ensures removes { Removes at.now (T.meaning tree.old) (T.meaning tree.new) }
    ensures gone { OnOk result (OfTold (T.meaning tree.new) (λ t. map.get t at.now ≡ None)) }
    ensures never_vanished { OfTold (T.meaning tree.old) (λ t. map.get t at.now ≡ Some entries.Folder → is_vanished result ≡ false) }
{
    let mut ahead = Vec::new(alloc);
    remove_leaves(alloc, tree, at, &Path::root(alloc), &mut ahead)?;
    let folders = remove_all_leaves(alloc, tree, at, ahead)?;
    remove_folders(alloc, tree, at, folders)?;
    remove_empty(alloc, tree, at)
}
