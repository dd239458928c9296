//! The parts of a job that was committed, each finished.

ghost use Rattle.std.specs.Prelude.{◌≡◌, ◌≢◌, ◌⊎◌, ◌++◌, ℕ, List, [], true, false, Some, None, Err, IfOk, OnOk, MatchOption, is_err, is_some};
ghost use Rattle.std.specs.FinMap as map;
ghost use Rattle.tree_dev.specs.Trees.{FileTree, entry_at, has_folder, is_folder, kind_at};
ghost use Rattle.path_name.specs.Decimals.{decimal_text};
ghost use Rattle.path_name.specs.Paths.{without_last};
ghost use Rattle.tree_dev.specs.Changes.{is_leaf, is_root};
ghost use Rattle.tree_dev.specs.Device.{OfTold, OnlyRead};
ghost use Rattle.tree_dev.specs.Disk.{reading};
ghost use Rattle.tree_dev.specs.Projects.{file_at, is_within};
ghost use Rattle.tree_dev.specs.Steady.{EachImage, IsWhole, Through};
ghost use Rattle.install_world.specs.InFlight.{AreAllDone, IsPart, IsPartDone, IsThere, old_path, target_path};
ghost use Rattle.install_world.specs.Blocked.{IsAbove, IsBlocked, IsFirstBlocked, NeedsAlike};
ghost use Rattle.install_world.specs.Finishing.{FinishesAlike, MakesReady, OnlyMade, Stands, StopsAt};
ghost use Rattle.install_world.specs.Moving.{Way, IsOnWay, ArePlaces, HasFolders, HasRoom};
ghost use Rattle.install_world.specs.Removals.{OnlyRemoved, Removes, WritesNone};
ghost use Rattle.install_world.specs.PartFaults.{is_device_fault, is_unfit, is_vanished};
ghost use Rattle.install_world.specs.Targets.{AreTargetPaths, IsTargetPath};
ghost use Rattle.install_world.specs.declared.part_fault.PartFault.TheVariants as faults;
ghost use Rattle.install_world.specs.declared.journal.Journal.{Journal as Journals};
ghost use Rattle.install_world.specs.declared.target.Target.{Target as Targets};

use crate::kept::find_folder_of_kept;
use crate::{PartFault, PartPlaces, Target, move_part, remove_folder};
use path_name::{Path, path_is_segments, push_number};
use std::alloc::{AllocError, Global};
use tree_dev::{Did, Failed, Kind, Made, Tree};

/// A part's number as a name.
fn number_name(alloc: Global, number: u64) -> Result<Vec<u8>, AllocError>
    ensures { IfOk result (λ digits. digits.items ≡ decimal_text number) }
{
    let mut digits = Vec::new(alloc);
    push_number(&mut digits, number)?;
    Ok(digits)
}

/// Where a part stands. Its one refusal is want of memory.
pub fn places_of(
    alloc: Global,
    project: &Path,
    number: u64,
    target: &Target,
) -> Result<PartPlaces, AllocError>
    ensures { IsTargetPath target.now.path → IfOk result (ArePlaces project.now number target.now) }
{
    let digits = number_name(alloc, number)?;
    let name = digits.as_slice();
    let work = project.child(alloc, b".install")?;
    let new = work.child(alloc, b"new")?;
    let old = work.child(alloc, b"old")?;
    let staged = new.child(alloc, name)?;
    let kept = old.child(alloc, name)?;
    let at = project.join(alloc, &target.path)?;
    Ok(PartPlaces {
        target: at,
        staged,
        kept,
    })
}

/// Makes a folder. `Vanished`: something is there, or no folder is above it.
fn make_missing<T: Tree>(alloc: Global, tree: &mut T, at: &Path) -> Result<(), PartFault>
    ensures writes_none { WritesNone (T.meaning tree.old) (T.meaning tree.new) (is_device_fault result) }
    ensures makes { OnlyMade at.now (reading (T.meaning tree.old).disks.now) (reading (T.meaning tree.new).disks.now) }
    ensures not_other { (path : List (List ℕ)) → result ≡ Err (faults.OtherEntry path) → ⊥ }
    ensures never_vanished { OfTold (T.meaning tree.old) (λ t. map.get t at.now ≡ None → has_folder t (without_last at.now) ≡ true → is_vanished result ≡ false) }
    ensures there { OnOk result (OfTold (T.meaning tree.new) (λ t. is_folder (entry_at t at.now) ≡ true)) }
{
    match tree.make_dir(at)? {
        Made::New => Ok(()),
        _ => Err(PartFault::Vanished(at.copy(alloc)?)),
    }
}

/// Makes a folder where nothing is. `OtherEntry`: an entry is there that is no folder.
fn need_folder<T: Tree>(alloc: Global, tree: &mut T, at: &Path) -> Result<(), PartFault>
    ensures writes_none { WritesNone (T.meaning tree.old) (T.meaning tree.new) (is_device_fault result) }
    ensures makes { OnlyMade at.now (reading (T.meaning tree.old).disks.now) (reading (T.meaning tree.new).disks.now) }
    ensures still { OfTold (T.meaning tree.old) (λ t. is_folder (entry_at t at.now) ≡ true → (T.meaning tree.new).disks ≡ (T.meaning tree.old).disks) }
    ensures fits { OfTold (T.meaning tree.old) (λ t. is_folder (entry_at t at.now) ≡ true → is_unfit result ≡ false) }
    ensures cause { (path : List (List ℕ)) → result ≡ Err (faults.OtherEntry path) → OfTold (T.meaning tree.new) (λ t. is_leaf (entry_at t path) ≡ true) }
    ensures never_vanished { OfTold (T.meaning tree.old) (λ t. has_folder t (without_last at.now) ≡ true → is_vanished result ≡ false) }
    ensures there { OnOk result (OfTold (T.meaning tree.new) (λ t. is_folder (entry_at t at.now) ≡ true)) }
    ensures at { (path : List (List ℕ)) → result ≡ Err (faults.OtherEntry path) → path ≡ at.now }
{
    match tree.stat(at)? {
        Kind::Folder => Ok(()),
        Kind::Absent => make_missing(alloc, tree, at),
        _ => Err(PartFault::OtherEntry(at.copy(alloc)?)),
    }
}

/// Makes a folder where nothing is. Another entry stays.
pub(crate) fn make_folder<T: Tree>(alloc: Global, tree: &mut T, at: &Path) -> Result<(), PartFault>
    ensures writes_none { WritesNone (T.meaning tree.old) (T.meaning tree.new) (is_device_fault result) }
    ensures makes { OnlyMade at.now (reading (T.meaning tree.old).disks.now) (reading (T.meaning tree.new).disks.now) }
    ensures still { OfTold (T.meaning tree.old) (λ t. is_folder (entry_at t at.now) ≡ true → (T.meaning tree.new).disks ≡ (T.meaning tree.old).disks) }
    ensures fits { OfTold (T.meaning tree.old) (λ t. is_folder (entry_at t at.now) ≡ true → is_unfit result ≡ false) }
    ensures not_other { (path : List (List ℕ)) → result ≡ Err (faults.OtherEntry path) → ⊥ }
    ensures never_vanished { OfTold (T.meaning tree.old) (λ t. has_folder t (without_last at.now) ≡ true → is_vanished result ≡ false) }
    ensures there { OnOk result (OfTold (T.meaning tree.new) (λ t. is_some (entry_at t at.now) ≡ true)) }
{
    match tree.stat(at)? {
        Kind::Absent => make_missing(alloc, tree, at),
        _ => Ok(()),
    }
}

/// Makes the missing ones of the folders on the way from the project to a path.
fn make_folders<T: Tree>(
    alloc: Global,
    tree: &mut T,
    project: &Path,
    path: &Path,
) -> Result<(), PartFault>
    ensures writes_none { WritesNone (T.meaning tree.old) (T.meaning tree.new) (is_device_fault result) }
    ensures makes { OnlyMade (project.now ++ path.now) (reading (T.meaning tree.old).disks.now) (reading (T.meaning tree.new).disks.now) }
    ensures cause { (path : List (List ℕ)) → result ≡ Err (faults.OtherEntry path) → OfTold (T.meaning tree.new) (λ t. is_leaf (entry_at t path) ≡ true) }
    ensures never_vanished { OfTold (T.meaning tree.old) (λ t. is_folder (entry_at t project.now) ≡ true → is_vanished result ≡ false) }
    ensures there { OnOk result (OfTold (T.meaning tree.old) (λ t. is_folder (entry_at t project.now) ≡ true
        → OfTold (T.meaning tree.new) (λ u. is_folder (entry_at u (project.now ++ path.now)) ≡ true))) }
    ensures within { (at : List (List ℕ)) → result ≡ Err (faults.OtherEntry at) → is_within at (project.now ++ path.now) ≡ true }
{
    path_is_segments(path);
    let names = path.segments(alloc)?;
    let mut at = project.copy(alloc)?;
    for name in names.as_slice() {
        at.enter(name.as_slice())?;
        need_folder(alloc, tree, &at)?;
    }
    Ok(())
}

/// Makes the missing ones of the folders between a project and a target.
fn make_above<T: Tree>(
    alloc: Global,
    tree: &mut T,
    project: &Path,
    target: &Path,
) -> Result<(), PartFault>
    ensures writes_none { WritesNone (T.meaning tree.old) (T.meaning tree.new) (is_device_fault result) }
    ensures makes { OnlyMade (project.now ++ target.now) (reading (T.meaning tree.old).disks.now) (reading (T.meaning tree.new).disks.now) }
    ensures cause { (path : List (List ℕ)) → result ≡ Err (faults.OtherEntry path) → OfTold (T.meaning tree.new) (λ t. is_leaf (entry_at t path) ≡ true) }
    ensures never_vanished { OfTold (T.meaning tree.old) (λ t. is_folder (entry_at t project.now) ≡ true → is_vanished result ≡ false) }
    ensures there { OnOk result (OfTold (T.meaning tree.old) (λ t. is_folder (entry_at t project.now) ≡ true → (above : List (List ℕ)) → without_last target.now ≡ Some above
        → OfTold (T.meaning tree.new) (λ u. is_folder (entry_at u (project.now ++ above)) ≡ true))) }
    ensures above { (at : List (List ℕ)) → result ≡ Err (faults.OtherEntry at) → IsAbove (project.now ++ target.now) at }
    ensures misses { map.get (reading (T.meaning tree.new).disks.now) (project.now ++ target.now) ≡ map.get (reading (T.meaning tree.old).disks.now) (project.now ++ target.now) }
{
    match target.parent(alloc)? {
        None => Ok(()),
        Some(above) => make_folders(alloc, tree, project, &above),
    }
}

/// The same where the folder right above the target is not there.
fn make_up_to<T: Tree>(
    alloc: Global,
    tree: &mut T,
    project: &Path,
    target: &Path,
    parent: &Path,
) -> Result<(), PartFault>
    ensures writes_none { WritesNone (T.meaning tree.old) (T.meaning tree.new) (is_device_fault result) }
    ensures makes { OnlyMade (project.now ++ target.now) (reading (T.meaning tree.old).disks.now) (reading (T.meaning tree.new).disks.now) }
    ensures still { OfTold (T.meaning tree.old) (λ t. is_folder (entry_at t parent.now) ≡ true → (T.meaning tree.new).disks ≡ (T.meaning tree.old).disks) }
    ensures fits { OfTold (T.meaning tree.old) (λ t. is_folder (entry_at t parent.now) ≡ true → is_unfit result ≡ false) }
    ensures cause { (path : List (List ℕ)) → result ≡ Err (faults.OtherEntry path) → OfTold (T.meaning tree.new) (λ t. is_leaf (entry_at t path) ≡ true) }
    ensures never_vanished { OfTold (T.meaning tree.old) (λ t. is_folder (entry_at t project.now) ≡ true → is_vanished result ≡ false) }
    ensures there { OnOk result (OfTold (T.meaning tree.old) (λ t. is_folder (entry_at t project.now) ≡ true → (above : List (List ℕ)) → without_last target.now ≡ Some above
        → parent.now ≡ project.now ++ above → OfTold (T.meaning tree.new) (λ u. is_folder (entry_at u parent.now) ≡ true))) }
    ensures above { (at : List (List ℕ)) → result ≡ Err (faults.OtherEntry at) → IsAbove (project.now ++ target.now) at }
    ensures misses { map.get (reading (T.meaning tree.new).disks.now) (project.now ++ target.now) ≡ map.get (reading (T.meaning tree.old).disks.now) (project.now ++ target.now) }
{
    match tree.stat(parent)? {
        Kind::Folder => Ok(()),
        _ => make_above(alloc, tree, project, target),
    }
}

/// Makes the missing folders above a target. Where the one right above it is there, that is all that is asked.
fn make_parents<T: Tree>(
    alloc: Global,
    tree: &mut T,
    project: &Path,
    target: &Path,
) -> Result<(), PartFault>
    ensures writes_none { WritesNone (T.meaning tree.old) (T.meaning tree.new) (is_device_fault result) }
    ensures makes { OnlyMade (project.now ++ target.now) (reading (T.meaning tree.old).disks.now) (reading (T.meaning tree.new).disks.now) }
    ensures still { OfTold (T.meaning tree.old) (λ t. has_folder t (without_last (project.now ++ target.now)) ≡ true
        → (T.meaning tree.new).disks ≡ (T.meaning tree.old).disks) }
    ensures fits { OfTold (T.meaning tree.old) (λ t. has_folder t (without_last (project.now ++ target.now)) ≡ true → is_unfit result ≡ false) }
    ensures cause { (path : List (List ℕ)) → result ≡ Err (faults.OtherEntry path) → OfTold (T.meaning tree.new) (λ t. is_leaf (entry_at t path) ≡ true) }
    ensures never_vanished { OfTold (T.meaning tree.old) (λ t. is_folder (entry_at t project.now) ≡ true → is_vanished result ≡ false) }
    ensures there { OnOk result (OfTold (T.meaning tree.old) (λ t. is_folder (entry_at t project.now) ≡ true → target.now ≢ []
        → OfTold (T.meaning tree.new) (λ u. has_folder u (without_last (project.now ++ target.now)) ≡ true))) }
    ensures above { (at : List (List ℕ)) → result ≡ Err (faults.OtherEntry at) → IsAbove (project.now ++ target.now) at }
    ensures misses { map.get (reading (T.meaning tree.new).disks.now) (project.now ++ target.now) ≡ map.get (reading (T.meaning tree.old).disks.now) (project.now ++ target.now) }
{
    let whole = project.join(alloc, target)?;
    match whole.parent(alloc)? {
        None => Ok(()),
        Some(parent) => make_up_to(alloc, tree, project, target, &parent),
    }
}

/// Whether something is at a path.
fn is_there<T: Tree>(tree: &mut T, at: &Path) -> Result<bool, Failed>
    ensures only_read { OnlyRead (T.meaning tree.old) (T.meaning tree.new) (is_err result) }
    ensures there { IfOk result (λ there. there ≡ true → OfTold (T.meaning tree.old) (λ t. is_root at.now ≡ false → IsThere t at.now)) }
    ensures absent { IfOk result (λ there. there ≡ false → OfTold (T.meaning tree.old) (λ t. map.get t at.now ≡ None)) }
{
    match tree.stat(at)? {
        Kind::Absent => Ok(false),
        _ => Ok(true),
    }
}

/// Whether a part has something staged that is to be put at its target.
fn is_to_be_put<T: Tree>(tree: &mut T, places: &PartPlaces, gone: bool) -> Result<bool, Failed>
    ensures only_read { OnlyRead (T.meaning tree.old) (T.meaning tree.new) (is_err result) }
    ensures needed { IfOk result (λ needed. needed ≡ false → OfTold (T.meaning tree.old) (λ t. gone ≡ false → IsThere t places.now.staged → ⊥)) }
    ensures put { IfOk result (λ needed. needed ≡ true → (gone ≡ false) × OfTold (T.meaning tree.old) (λ t. is_root places.now.staged ≡ false → IsThere t places.now.staged)) }
{
    if gone {
        return Ok(false);
    }
    is_there(tree, &places.staged)
}

/// Makes the missing folders above the target of a part that is to be put there.
fn make_needed<T: Tree>(
    alloc: Global,
    tree: &mut T,
    project: &Path,
    target: &Target,
    places: &PartPlaces,
) -> Result<(), PartFault>
    ensures writes_none { WritesNone (T.meaning tree.old) (T.meaning tree.new) (is_device_fault result) }
    ensures makes { OnlyMade (project.now ++ target.now.path) (reading (T.meaning tree.old).disks.now) (reading (T.meaning tree.new).disks.now) }
    ensures still { OfTold (T.meaning tree.old) (λ t. has_folder t (without_last (project.now ++ target.now.path)) ≡ true
        → (T.meaning tree.new).disks ≡ (T.meaning tree.old).disks) }
    ensures fits { OfTold (T.meaning tree.old) (λ t. has_folder t (without_last (project.now ++ target.now.path)) ≡ true → is_unfit result ≡ false) }
    ensures cause { (path : List (List ℕ)) → result ≡ Err (faults.OtherEntry path) → OfTold (T.meaning tree.new) (λ t. is_leaf (entry_at t path) ≡ true) }
    ensures never_vanished { OfTold (T.meaning tree.old) (λ t. is_folder (entry_at t project.now) ≡ true → is_vanished result ≡ false) }
    ensures there { OnOk result (OfTold (T.meaning tree.old) (λ t. is_folder (entry_at t project.now) ≡ true → target.now.path ≢ [] → target.now.gone ≡ false → IsThere t places.now.staged
        → OfTold (T.meaning tree.new) (λ u. has_folder u (without_last (project.now ++ target.now.path)) ≡ true))) }
    ensures above { (at : List (List ℕ)) → result ≡ Err (faults.OtherEntry at) → (target.now.gone ≡ false) × IsAbove (project.now ++ target.now.path) at
        × OfTold (T.meaning tree.old) (λ t. is_root places.now.staged ≡ false → IsThere t places.now.staged) }
    ensures misses { map.get (reading (T.meaning tree.new).disks.now) (project.now ++ target.now.path) ≡ map.get (reading (T.meaning tree.old).disks.now) (project.now ++ target.now.path) }
{
    let needed = is_to_be_put(tree, places, target.gone)?;
    if needed {
        return make_parents(alloc, tree, project, &target.path);
    }
    Ok(())
}

/// Whether something is at the target of a part that is still to be moved.
fn is_taken<T: Tree>(tree: &mut T, places: &PartPlaces, gone: bool) -> Result<bool, Failed>
    ensures only_read { OnlyRead (T.meaning tree.old) (T.meaning tree.new) (is_err result) }
    ensures taken { IfOk result (λ taken. taken ≡ true → OfTold (T.meaning tree.old) (λ t. (project : List (List ℕ)) (number : ℕ) (target : Targets)
        → ArePlaces project number target places.now → IsThere t places.now.target × ((gone ≡ true) ⊎ IsThere t places.now.staged))) }
    ensures room { IfOk result (λ taken. taken ≡ false → OfTold (T.meaning tree.old) (λ t. HasRoom gone places.now t)) }
{
    if gone {
        return is_there(tree, &places.target);
    }
    match tree.stat(&places.staged)? {
        Kind::Absent => Ok(false),
        _ => is_there(tree, &places.target),
    }
}

/// Removes an entry that is no folder. `Vanished`: nothing or a folder is there.
fn remove_one<T: Tree>(alloc: Global, tree: &mut T, at: &Path) -> Result<(), PartFault>
    ensures writes_none { WritesNone (T.meaning tree.old) (T.meaning tree.new) (is_device_fault result) }
    ensures removes { Removes at.now (T.meaning tree.old) (T.meaning tree.new) }
    ensures gone { OnOk result (OfTold (T.meaning tree.new) (λ t. map.get t at.now ≡ None)) }
    ensures fits { OfTold (T.meaning tree.old) (λ t. is_leaf (entry_at t at.now) ≡ true → is_unfit result ≡ false) }
    ensures not_other { (path : List (List ℕ)) → result ≡ Err (faults.OtherEntry path) → ⊥ }
{
    match tree.remove_file(at)? {
        Did::Done => Ok(()),
        Did::Misplaced => Err(PartFault::Vanished(at.copy(alloc)?)),
    }
}

/// Removes what stands at a path, a folder with all that is in it.
fn remove_entry<T: Tree>(
    alloc: Global,
    tree: &mut T,
    at: &Path,
    kind: Kind,
) -> Result<(), PartFault>
    ensures writes_none { WritesNone (T.meaning tree.old) (T.meaning tree.new) (is_device_fault result) }
    ensures removes { Removes at.now (T.meaning tree.old) (T.meaning tree.new) }
    ensures gone { OnOk result (OfTold (T.meaning tree.new) (λ t. map.get t at.now ≡ None)) }
    ensures fits { OfTold (T.meaning tree.old) (λ t. IsThere t at.now → kind ≡ kind_at t at.now → is_unfit result ≡ false) }
    ensures not_other { (path : List (List ℕ)) → result ≡ Err (faults.OtherEntry path) → ⊥ }
{
    match kind {
        Kind::Folder => {
            remove_folder(alloc, tree, at)?;
            Ok(())
        }
        _ => remove_one(alloc, tree, at),
    }
}

/// The kind of entry that was found where the target of a part goes, if that is still to be taken.
fn kept_if_taken<T: Tree>(
    tree: &mut T,
    places: &PartPlaces,
    gone: bool,
    kind: Kind,
) -> Result<Option<Kind>, Failed>
    ensures only_read { OnlyRead (T.meaning tree.old) (T.meaning tree.new) (is_err result) }
    ensures taken { IfOk result (λ found. is_some found ≡ true → OfTold (T.meaning tree.old) (λ t. (project : List (List ℕ)) (number : ℕ) (target : Targets)
        → ArePlaces project number target places.now → IsThere t places.now.target × ((gone ≡ true) ⊎ IsThere t places.now.staged))) }
    ensures found { IfOk result (λ found. OfTold (T.meaning tree.old) (λ t. MatchOption found (HasRoom gone places.now t) (λ same. same ≡ kind))) }
{
    let taken = is_taken(tree, places, gone)?;
    Ok(if taken { Some(kind) } else { None })
}

/// What kind of entry stands where the target of a part is to be taken, if one does.
fn kept_in_the_way<T: Tree>(
    tree: &mut T,
    places: &PartPlaces,
    gone: bool,
) -> Result<Option<Kind>, Failed>
    ensures only_read { OnlyRead (T.meaning tree.old) (T.meaning tree.new) (is_err result) }
    ensures taken { IfOk result (λ found. is_some found ≡ true → OfTold (T.meaning tree.old) (λ t. (project : List (List ℕ)) (number : ℕ) (target : Targets)
        → ArePlaces project number target places.now → IsThere t places.now.target × ((gone ≡ true) ⊎ IsThere t places.now.staged))) }
    ensures found { IfOk result (λ found. OfTold (T.meaning tree.old) (λ t. is_root places.now.kept ≡ false
        → MatchOption found (HasRoom gone places.now t) (λ kind. IsThere t places.now.kept × (kind ≡ kind_at t places.now.kept)))) }
{
    match tree.stat(&places.kept)? {
        Kind::Absent => Ok(None),
        kind => kept_if_taken(tree, places, gone, kind),
    }
}

/// Removes what stands at a path. A barrier comes first, so that a crash leaves the tree as it reads, but for what was
/// removed.
fn settle_and_remove<T: Tree>(
    alloc: Global,
    tree: &mut T,
    at: &Path,
    kind: Kind,
) -> Result<(), PartFault>
    ensures writes_none { WritesNone (T.meaning tree.old) (T.meaning tree.new) (is_device_fault result) }
    ensures removes { OnlyRemoved at.now (reading (T.meaning tree.old).disks.now) (reading (T.meaning tree.new).disks.now) }
    ensures through { OfTold (T.meaning tree.old) (λ t. (way : Way) → ((left : FileTree) → OnlyRemoved at.now t left → IsOnWay way left)
        → EachImage (T.meaning tree.old) (IsOnWay way) → Through (T.meaning tree.old) (T.meaning tree.new) (IsOnWay way)) }
    ensures gone { OnOk result (OfTold (T.meaning tree.new) (λ t. map.get t at.now ≡ None)) }
    ensures fits { OfTold (T.meaning tree.old) (λ t. IsThere t at.now → kind ≡ kind_at t at.now → is_unfit result ≡ false) }
    ensures not_other { (path : List (List ℕ)) → result ≡ Err (faults.OtherEntry path) → ⊥ }
{
    tree.barrier()?;
    remove_entry(alloc, tree, at, kind)
}

/// Removes what stands where the target of a part is to be taken.
fn clear_kept<T: Tree>(
    alloc: Global,
    tree: &mut T,
    places: &PartPlaces,
    gone: bool,
) -> Result<(), PartFault>
    ensures writes_none { WritesNone (T.meaning tree.old) (T.meaning tree.new) (is_device_fault result) }
    ensures removes { OnlyRemoved places.now.kept (reading (T.meaning tree.old).disks.now) (reading (T.meaning tree.new).disks.now) }
    ensures through { OfTold (T.meaning tree.old) (λ t. (way : Way) (number : ℕ) (target : Targets)
        → ArePlaces way.project number target places.now → IsPart way.journal.targets number target → target.gone ≡ gone
        → EachImage (T.meaning tree.old) (IsOnWay way) → Through (T.meaning tree.old) (T.meaning tree.new) (IsOnWay way)) }
    ensures room { OnOk result (OfTold (T.meaning tree.old) (λ t. is_root places.now.kept ≡ false → OfTold (T.meaning tree.new) (HasRoom gone places.now))) }
    ensures fits { OfTold (T.meaning tree.old) (λ t. is_root places.now.kept ≡ false → is_unfit result ≡ false) }
    ensures not_other { (path : List (List ℕ)) → result ≡ Err (faults.OtherEntry path) → ⊥ }
{
    match kept_in_the_way(tree, places, gone)? {
        None => Ok(()),
        Some(kind) => settle_and_remove(alloc, tree, &places.kept, kind),
    }
}

/// Makes ready what the moves of a part need: the folders above a target at which something is to be put, and where what stands
/// at a target is taken, a folder that keeps it, and nothing in its place there.
fn prepare_part<T: Tree>(
    alloc: Global,
    tree: &mut T,
    project: &Path,
    target: &Target,
    places: &PartPlaces,
) -> Result<(), PartFault>
    ensures writes_none { WritesNone (T.meaning tree.old) (T.meaning tree.new) (is_device_fault result) }
    ensures ready { MakesReady (project.now ++ target.now.path) places.now.kept (reading (T.meaning tree.old).disks.now) (reading (T.meaning tree.new).disks.now) }
    ensures through { OfTold (T.meaning tree.old) (λ t. (way : Way) (number : ℕ) → way.project ≡ project.now
        → ArePlaces project.now number target.now places.now → IsPart way.journal.targets number target.now
        → EachImage (T.meaning tree.old) (IsOnWay way) → Through (T.meaning tree.old) (T.meaning tree.new) (IsOnWay way)) }
    ensures room { OnOk result (OfTold (T.meaning tree.old) (λ t. is_root places.now.kept ≡ false → OfTold (T.meaning tree.new) (HasRoom target.now.gone places.now))) }
    ensures fits { OfTold (T.meaning tree.old) (λ t. is_root places.now.kept ≡ false → has_folder t (without_last (project.now ++ target.now.path)) ≡ true
        → is_folder (entry_at t (old_path project.now)) ≡ true → is_unfit result ≡ false) }
    ensures cause { (path : List (List ℕ)) → result ≡ Err (faults.OtherEntry path) → OfTold (T.meaning tree.new) (λ t. is_leaf (entry_at t path) ≡ true) }
    ensures never_vanished { OfTold (T.meaning tree.old) (λ t. is_folder (entry_at t project.now) ≡ true → is_root places.now.kept ≡ false
        → (number : ℕ) → ArePlaces project.now number target.now places.now → is_some (entry_at t (old_path project.now)) ≡ true → is_vanished result ≡ false) }
    ensures folders { OnOk result (OfTold (T.meaning tree.old) (λ t. is_folder (entry_at t project.now) ≡ true → (number : ℕ) → ArePlaces project.now number target.now places.now
        → OfTold (T.meaning tree.new) (HasFolders project.now number target.now))) }
    ensures stays { (path : List (List ℕ)) → result ≡ Err (faults.OtherEntry path)
        → OnlyMade (project.now ++ target.now.path) (reading (T.meaning tree.old).disks.now) (reading (T.meaning tree.new).disks.now) }
    ensures blocked { (at : List (List ℕ)) → result ≡ Err (faults.OtherEntry at) → OfTold (T.meaning tree.old) (λ t. (number : ℕ)
        → ArePlaces project.now number target.now places.now → IsBlocked project.now number target.now t at) }
    ensures free { OnOk result (OfTold (T.meaning tree.old) (λ t. is_folder (entry_at t project.now) ≡ true → (number : ℕ) → ArePlaces project.now number target.now places.now
        → (at : List (List ℕ)) → IsBlocked project.now number target.now t at → ⊥)) }
{
    make_needed(alloc, tree, project, target, places)?;
    find_folder_of_kept(alloc, tree, project, places, target.gone)?;
    clear_kept(alloc, tree, places, target.gone)
}

/// Finishes a part: makes missing folders above its target where a move needs them, and moves it.
fn finish_part<T: Tree>(
    alloc: Global,
    tree: &mut T,
    project: &Path,
    number: u64,
    target: &Target,
) -> Result<(), PartFault>
    ensures writes_none { WritesNone (T.meaning tree.old) (T.meaning tree.new) (is_device_fault result) }
    ensures through { OfTold (T.meaning tree.old) (λ t. IsWhole (T.meaning tree.old).disks.now → (way : Way)
        → way.project ≡ project.now → IsPart way.journal.targets number target.now
        → EachImage (T.meaning tree.old) (IsOnWay way) → Through (T.meaning tree.old) (T.meaning tree.new) (IsOnWay way)) }
    ensures done { OnOk result (OfTold (T.meaning tree.old) (λ t. IsTargetPath target.now.path
        → IsPartDone target.now.gone project.now number target.now (reading (T.meaning tree.new).disks.now))) }
    ensures others { OnOk result (OfTold (T.meaning tree.old) (λ t. (journal : Journals) → Stands project.now journal t → IsPart journal.targets number target.now
        → (j : ℕ) (other : Targets) → (number ≡ j → ⊥) → IsPart journal.targets j other
        → IsPartDone other.gone project.now j other t → IsPartDone other.gone project.now j other (reading (T.meaning tree.new).disks.now))) }
    ensures alike { OfTold (T.meaning tree.old) (λ t. (journal : Journals) → Stands project.now journal t → IsPart journal.targets number target.now
        → FinishesAlike project.now journal t (reading (T.meaning tree.new).disks.now)) }
    ensures fits { OfTold (T.meaning tree.old) (λ t. IsWhole (T.meaning tree.old).disks.now → (way : Way)
        → way.project ≡ project.now → IsPart way.journal.targets number target.now
        → EachImage (T.meaning tree.old) (IsOnWay way) → is_unfit result ≡ false) }
    ensures cause { (path : List (List ℕ)) → result ≡ Err (faults.OtherEntry path) → OfTold (T.meaning tree.new) (λ t. is_leaf (entry_at t path) ≡ true) }
    ensures never_vanished { OfTold (T.meaning tree.old) (λ t. IsTargetPath target.now.path → is_some (entry_at t (old_path project.now)) ≡ true → is_vanished result ≡ false) }
    ensures old { OfTold (T.meaning tree.old) (λ t. IsTargetPath target.now.path → is_some (entry_at t (old_path project.now)) ≡ true
        → is_some (entry_at (reading (T.meaning tree.new).disks.now) (old_path project.now)) ≡ true) }
    ensures stays { (path : List (List ℕ)) → result ≡ Err (faults.OtherEntry path)
        → OnlyMade (project.now ++ target.now.path) (reading (T.meaning tree.old).disks.now) (reading (T.meaning tree.new).disks.now) }
    ensures leaves { OfTold (T.meaning tree.old) (λ t. (journal : Journals) → Stands project.now journal t → IsPart journal.targets number target.now
        → (j : ℕ) (other : Targets) → (number ≡ j → ⊥) → IsPart journal.targets j other → (below : List (List ℕ))
        → file_at (reading (T.meaning tree.new).disks.now) (target_path project.now other ++ below) ≡ file_at t (target_path project.now other ++ below)) }
    ensures blocked { (at : List (List ℕ)) → result ≡ Err (faults.OtherEntry at) → OfTold (T.meaning tree.old) (λ t. IsTargetPath target.now.path
        → IsBlocked project.now number target.now t at) }
    ensures free { OnOk result (OfTold (T.meaning tree.old) (λ t. IsTargetPath target.now.path → is_some (entry_at t (old_path project.now)) ≡ true
        → (at : List (List ℕ)) → IsBlocked project.now number target.now t at → ⊥)) }
    ensures needs { OfTold (T.meaning tree.old) (λ t. (journal : Journals) → Stands project.now journal t → IsPart journal.targets number target.now
        → (j : ℕ) (other : Targets) → (number ≡ j → ⊥) → IsPart journal.targets j other
        → NeedsAlike project.now j other t (reading (T.meaning tree.new).disks.now)) }
{
    let places = places_of(alloc, project, number, target)?;
    prepare_part(alloc, tree, project, target, &places)?;
    match move_part(tree, &places, target.gone)? {
        Did::Done => Ok(()),
        Did::Misplaced => Err(PartFault::Vanished(places.target)),
    }
}

/// Finishes all parts, in their order.
pub(crate) fn finish_parts<T: Tree>(
    alloc: Global,
    tree: &mut T,
    project: &Path,
    targets: &[Target],
) -> Result<(), PartFault>
    ensures writes_none { WritesNone (T.meaning tree.old) (T.meaning tree.new) (is_device_fault result) }
    ensures through { OfTold (T.meaning tree.old) (λ t. IsWhole (T.meaning tree.old).disks.now → (way : Way)
        → way.project ≡ project.now → way.journal.targets ≡ targets.now
        → EachImage (T.meaning tree.old) (IsOnWay way) → Through (T.meaning tree.old) (T.meaning tree.new) (IsOnWay way)) }
    ensures done { OnOk result (OfTold (T.meaning tree.old) (λ t. (journal : Journals) → journal.targets ≡ targets.now → Stands project.now journal t
        → AreAllDone project.now targets.now (reading (T.meaning tree.new).disks.now))) }
    ensures alike { OfTold (T.meaning tree.old) (λ t. (journal : Journals) → journal.targets ≡ targets.now → Stands project.now journal t
        → FinishesAlike project.now journal t (reading (T.meaning tree.new).disks.now)) }
    ensures fits { OfTold (T.meaning tree.old) (λ t. IsWhole (T.meaning tree.old).disks.now → (way : Way)
        → way.project ≡ project.now → way.journal.targets ≡ targets.now
        → EachImage (T.meaning tree.old) (IsOnWay way) → is_unfit result ≡ false) }
    ensures cause { (path : List (List ℕ)) → result ≡ Err (faults.OtherEntry path) → OfTold (T.meaning tree.new) (λ t. is_leaf (entry_at t path) ≡ true) }
    ensures never_vanished { OfTold (T.meaning tree.old) (λ t. AreTargetPaths targets.now → is_some (entry_at t (old_path project.now)) ≡ true → is_vanished result ≡ false) }
    ensures old { OfTold (T.meaning tree.old) (λ t. AreTargetPaths targets.now → is_some (entry_at t (old_path project.now)) ≡ true
        → is_some (entry_at (reading (T.meaning tree.new).disks.now) (old_path project.now)) ≡ true) }
    ensures stops { (path : List (List ℕ)) → result ≡ Err (faults.OtherEntry path) → OfTold (T.meaning tree.old) (λ t. (journal : Journals)
        → journal.targets ≡ targets.now → Stands project.now journal t → (number : ℕ) × StopsAt project.now journal number t (reading (T.meaning tree.new).disks.now)) }
    ensures blocked { (at : List (List ℕ)) → result ≡ Err (faults.OtherEntry at) → OfTold (T.meaning tree.old) (λ t. (journal : Journals) → journal.targets ≡ targets.now
        → Stands project.now journal t → is_some (entry_at t (old_path project.now)) ≡ true → IsFirstBlocked project.now targets.now t at) }
    ensures free { OnOk result (OfTold (T.meaning tree.old) (λ t. (journal : Journals) → journal.targets ≡ targets.now → Stands project.now journal t
        → is_some (entry_at t (old_path project.now)) ≡ true → (j : ℕ) (other : Targets) → IsPart targets.now j other → (at : List (List ℕ))
        → IsBlocked project.now j other t at → ⊥)) }
{
    'targets: for (number, target) in targets.iter().enumerate() {
        finish_part(alloc, tree, project, number as u64, target)?;
    }
    Ok(())
}
