//! Folders that are missing above an entry.

ghost use Rattle.std.specs.Prelude.{◌≡◌, ◌⊎◌, ◌++◌, ℕ, List, Ok, Some, None, IfOk, OnOk, true, if◌then◌else◌};
ghost use Rattle.std.specs.Ordering.{eq_by_cmp};
ghost use Rattle.std.specs.FinMap as map;
ghost use Rattle.path_name.specs.Orders.{path_cmp};
ghost use Rattle.path_name.specs.Paths.{IsPath, without_last};
ghost use Rattle.tree_dev.specs.Trees.{has_folder};
ghost use Rattle.tree_dev.specs.Device.{OfTold};
ghost use Rattle.tree_dev.specs.declared.entry.Entry.TheVariants.{Folder};
ghost use Rattle.stage_job.specs.Above.{CanMake, CanMakeWay, HasWay, MakesFolders, front_of};
ghost use Rattle.stage_job.specs.Faults.{Answers, is_device_fault};
ghost use Rattle.stage_job.specs.Staged.{KeepsTelling, Staging};

use crate::fault::StageFault;
use crate::putting::vanished;
use path_name::{Name, Path, path_is_segments};
use std::alloc::{AllocError, Global};
use tree_dev::{Made, Tree};

/// Makes a folder where none is. `Vanished`: no folder is above it; never over a tree that tells.
fn ensure_folder<T: Tree>(alloc: Global, tree: &mut T, at: &Path) -> Result<(), StageFault>
    requires above { OfTold (T.meaning tree.old) (λ t. has_folder t (without_last at.now) ≡ true) }
    requires free { OfTold (T.meaning tree.old) (λ t. (map.get t at.now ≡ None) ⊎ (map.get t at.now ≡ Some Folder)) }
    ensures staging { (project : List (List ℕ)) → CanMake project at.now → Staging project (T.meaning tree.old) (T.meaning tree.new) (is_device_fault result) }
    ensures tells { KeepsTelling (T.meaning tree.old) (T.meaning tree.new) }
    ensures answer { OfTold (T.meaning tree.old) (λ t. (left : ℕ) → Answers (Ok left) left result) }
    ensures made { OnOk result (OfTold (T.meaning tree.old) (λ t. OfTold (T.meaning tree.new) (λ u. (path : List (List ℕ))
        → map.get u path ≡ (if eq_by_cmp path_cmp path at.now then Some Folder else map.get t path)))) }
    ensures writes { (T.meaning tree.new).writes ≡ (T.meaning tree.old).writes }
{
    match tree.make_dir(at)? {
        Made::New => Ok(()),
        Made::Exists => Ok(()),
        Made::Misplaced => vanished(alloc, at),
    }
}

/// Makes the folders that are missing on the way of some names from a folder.
fn make_way<T: Tree>(
    alloc: Global,
    tree: &mut T,
    base: &Path,
    names: &[Name],
) -> Result<(), StageFault>
    requires segments { IsPath names.now }
    requires way { OfTold (T.meaning tree.old) (HasWay base.now names.now) }
    ensures staging { (project : List (List ℕ)) → CanMakeWay project base.now names.now → Staging project (T.meaning tree.old) (T.meaning tree.new) (is_device_fault result) }
    ensures tells { KeepsTelling (T.meaning tree.old) (T.meaning tree.new) }
    ensures answer { OfTold (T.meaning tree.old) (λ t. (left : ℕ) → Answers (Ok left) left result) }
    ensures made { OnOk result (OfTold (T.meaning tree.old) (λ t. OfTold (T.meaning tree.new) (MakesFolders base.now names.now t))) }
    ensures writes { (T.meaning tree.new).writes ≡ (T.meaning tree.old).writes }
{
    let mut at = base.copy(alloc)?;
    for name in names {
        at.enter(name.as_slice())?;
        ensure_folder(alloc, tree, &at)?;
    }
    Ok(())
}

/// The segments of a path but its last one. Its one refusal is want of memory.
fn front_names(alloc: Global, below: &Path) -> Result<Vec<Name>, AllocError>
    ensures names { IfOk result (λ names. names.items ≡ front_of below.now) }
    ensures segments { IfOk result (λ names. IsPath names.items) }
{
    let mut above = below.copy(alloc)?;
    above.leave();
    path_is_segments(&above);
    above.segments(alloc)
}

/// Makes the folders that are missing between a folder and a path below it.
pub fn make_above<T: Tree>(
    alloc: Global,
    tree: &mut T,
    base: &Path,
    below: &Path,
) -> Result<(), StageFault>
    requires way { OfTold (T.meaning tree.old) (HasWay base.now (front_of below.now)) }
    ensures staging { (project : List (List ℕ)) → CanMakeWay project base.now (front_of below.now) → Staging project (T.meaning tree.old) (T.meaning tree.new) (is_device_fault result) }
    ensures tells { KeepsTelling (T.meaning tree.old) (T.meaning tree.new) }
    ensures answer { OfTold (T.meaning tree.old) (λ t. (left : ℕ) → Answers (Ok left) left result) }
    ensures made { OnOk result (OfTold (T.meaning tree.old) (λ t. OfTold (T.meaning tree.new) (MakesFolders base.now (front_of below.now) t))) }
    ensures writes { (T.meaning tree.new).writes ≡ (T.meaning tree.old).writes }
{
    let names = front_names(alloc, below)?;
    make_way(alloc, tree, base, names.as_slice())
}
