//! The folder that keeps what is taken away for a part, where something is.

ghost use Rattle.std.specs.Prelude.{◌≡◌, ℕ, List, true, false, Err, IfOk, OnOk, is_err, is_some};
ghost use Rattle.tree_dev.specs.Trees.{entry_at, is_folder, kind_at};
ghost use Rattle.tree_dev.specs.Changes.{is_leaf};
ghost use Rattle.tree_dev.specs.Device.{OfTold, OnlyRead};
ghost use Rattle.install_world.specs.InFlight.{old_path};
ghost use Rattle.install_world.specs.Moving.{is_kept, is_no_file, is_replaced, is_something};
ghost use Rattle.install_world.specs.PartFaults.{is_device_fault, is_unfit, is_vanished};
ghost use Rattle.install_world.specs.declared.part_fault.PartFault.TheVariants as faults;

use crate::{PartFault, PartPlaces};
use path_name::Path;
use std::alloc::{AllocError, Global};
use tree_dev::{Failed, Kind, Tree};

/// Whether a kind is that of an entry.
fn is_something(kind: Kind) -> bool
    ensures { result ≡ is_something kind }
{
    match kind {
        Kind::Absent => false,
        Kind::File => true,
        Kind::Folder => true,
        Kind::Other => true,
    }
}

/// Whether a kind is that of an entry that is no file.
fn is_no_file(kind: Kind) -> bool
    ensures { result ≡ is_no_file kind }
{
    match kind {
        Kind::Absent => false,
        Kind::File => false,
        Kind::Folder => true,
        Kind::Other => true,
    }
}

/// Whether what is staged, of one kind, takes the place of what stands at a target, of another, once that is taken away.
fn is_replaced(target: Kind, staged: Kind) -> bool
    ensures { result ≡ is_replaced target staged }
{
    match target {
        Kind::Absent => false,
        Kind::File => is_no_file(staged),
        Kind::Folder => is_something(staged),
        Kind::Other => is_something(staged),
    }
}

/// Whether what stands at a target is taken where it is kept.
fn is_kept(gone: bool, target: Kind, staged: Kind) -> bool
    ensures { result ≡ is_kept gone target staged }
{
    if gone {
        return is_something(target);
    }
    is_replaced(target, staged)
}

/// Whether a part takes what stands at its target where it is kept.
fn keeps<T: Tree>(tree: &mut T, places: &PartPlaces, gone: bool) -> Result<bool, Failed>
    ensures only_read { OnlyRead (T.meaning tree.old) (T.meaning tree.new) (is_err result) }
    ensures keeps { IfOk result (λ keeps. OfTold (T.meaning tree.old) (λ t. keeps ≡ is_kept gone (kind_at t places.now.target) (kind_at t places.now.staged))) }
{
    let target = tree.stat(&places.target)?;
    let staged = tree.stat(&places.staged)?;
    Ok(is_kept(gone, target, staged))
}

/// Looks for a folder. `OtherEntry`: another entry is there. `Vanished`: nothing is.
fn find_folder<T: Tree>(alloc: Global, tree: &mut T, at: &Path) -> Result<(), PartFault>
    ensures only_read { OnlyRead (T.meaning tree.old) (T.meaning tree.new) (is_device_fault result) }
    ensures folder { OnOk result (OfTold (T.meaning tree.old) (λ t. is_folder (entry_at t at.now) ≡ true)) }
    ensures other { (path : List (List ℕ)) → result ≡ Err (faults.OtherEntry path) → (path ≡ at.now) × OfTold (T.meaning tree.old) (λ t. is_leaf (entry_at t at.now) ≡ true) }
    ensures fits { OfTold (T.meaning tree.old) (λ t. is_folder (entry_at t at.now) ≡ true → is_unfit result ≡ false) }
    ensures never_vanished { OfTold (T.meaning tree.old) (λ t. is_some (entry_at t at.now) ≡ true → is_vanished result ≡ false) }
{
    match tree.stat(at)? {
        Kind::Folder => Ok(()),
        Kind::Absent => Err(PartFault::Vanished(at.copy(alloc)?)),
        _ => Err(PartFault::OtherEntry(at.copy(alloc)?)),
    }
}

/// Where what is taken away is kept. Its one refusal is want of memory.
fn folder_of_kept(alloc: Global, project: &Path) -> Result<Path, AllocError>
    ensures { IfOk result (λ at. at ≡ old_path project.now) }
{
    let work = project.child(alloc, b".install")?;
    work.child(alloc, b"old")
}

/// Looks for the folder that keeps what stands at the target of a part, if that is to be taken there. `OtherEntry`: another
/// entry is there.
pub(crate) fn find_folder_of_kept<T: Tree>(
    alloc: Global,
    tree: &mut T,
    project: &Path,
    places: &PartPlaces,
    gone: bool,
) -> Result<(), PartFault>
    ensures only_read { OnlyRead (T.meaning tree.old) (T.meaning tree.new) (is_device_fault result) }
    ensures folder { OnOk result (OfTold (T.meaning tree.old) (λ t. is_kept gone (kind_at t places.now.target) (kind_at t places.now.staged) ≡ true
        → is_folder (entry_at t (old_path project.now)) ≡ true)) }
    ensures other { (path : List (List ℕ)) → result ≡ Err (faults.OtherEntry path) → (path ≡ old_path project.now) × OfTold (T.meaning tree.old)
        (λ t. (is_kept gone (kind_at t places.now.target) (kind_at t places.now.staged) ≡ true) × (is_leaf (entry_at t (old_path project.now)) ≡ true)) }
    ensures fits { OfTold (T.meaning tree.old) (λ t. is_folder (entry_at t (old_path project.now)) ≡ true → is_unfit result ≡ false) }
    ensures never_vanished { OfTold (T.meaning tree.old) (λ t. is_some (entry_at t (old_path project.now)) ≡ true → is_vanished result ≡ false) }
{
    let keeps = keeps(tree, places, gone)?;
    if keeps {
        let at = folder_of_kept(alloc, project)?;
        return find_folder(alloc, tree, &at);
    }
    Ok(())
}
