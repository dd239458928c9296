//! The claim on a project.

ghost use Rattle.std.specs.Prelude.{◌≡◌, ℕ, List, IfOk, OnOk, Err, None, Some, IsTrue, true, false};
ghost use Rattle.std.specs.FinMap as map;
ghost use Rattle.path_name.specs.Paths.{without_last};
ghost use Rattle.tree_dev.specs.Trees.{has_folder};
ghost use Rattle.tree_dev.specs.Device.{Adds, OfTold, Rose, Stays};
ghost use Rattle.tree_dev.specs.Projects.{work_path};
ghost use Rattle.tree_dev.specs.Steady.{Steady};
ghost use Rattle.tree_dev.specs.declared.change.Change.TheVariants as changes;
ghost use Rattle.install_world.specs.InFlight.{IsThere};
ghost use Rattle.install_world.specs.Removals.{Removes, WritesNone};
ghost use Rattle.tree_dev.specs.declared.entry.Entry.TheVariants as entries;
ghost use Rattle.stage_job.specs.Staged.{KeepsTelling};
ghost use Rattle.vendor_journal.specs.Faults.{is_device_fault, is_lost};
ghost use Rattle.vendor_journal.specs.declared.hold_fault.ClaimFault.TheVariants as faults;

use crate::ClaimFault;
use install_world::remove_folder;
use path_name::Path;
use std::alloc::Global;
use tree_dev::{Made, Tree};

/// The claim on a project: its `.install` was made by this program, and no other installs there until it is released.
#[derive(Debug, Drop)]
pub struct Hold {
    /// The project's folder.
    pub project: Path,
}

/// Claims a project: makes its folder `.install`, where nothing is. `Unfinished`: something is there. `Vanished(path)`, with
/// the path of `.install`: no folder is above it. The test and the making are one call, so two installs never both claim.
/// Whatever happens, the project and its surroundings stay, and no journal comes.
pub fn claim<T: Tree>(alloc: Global, tree: &mut T, project: &Path) -> Result<Hold, ClaimFault>
    ensures held { IfOk result (λ hold. hold.project ≡ project.now) }
    ensures claimed { OnOk result (OfTold (T.meaning tree.old) (λ t. (map.get t (work_path project.now) ≡ None)
        × Adds (T.meaning tree.old) (T.meaning tree.new) (changes.FolderMade (work_path project.now)))) }
    ensures above { OnOk result (OfTold (T.meaning tree.old) (λ t. has_folder t (without_last (work_path project.now)) ≡ true)) }
    ensures tells { KeepsTelling (T.meaning tree.old) (T.meaning tree.new) }
    ensures unfinished { result ≡ Err faults.Unfinished → Stays (T.meaning tree.old) (T.meaning tree.new)
        × OfTold (T.meaning tree.old) (λ t. IsThere t (work_path project.now)) }
    ensures vanished { (path : List (List ℕ)) → result ≡ Err (faults.Vanished path) → (path ≡ work_path project.now) × (Stays (T.meaning tree.old) (T.meaning tree.new)
        × OfTold (T.meaning tree.old) (λ t. has_folder t (without_last (work_path project.now)) ≡ false)) }
    ensures steady { Steady project.now (T.meaning tree.old) (T.meaning tree.new) }
    ensures writes { (T.meaning tree.new).writes ≡ (T.meaning tree.old).writes }
    ensures device { IsTrue (is_device_fault result) → Rose (T.meaning tree.old).faults (T.meaning tree.new).faults }
{
    let work = project.child(alloc, b".install")?;
    let held = project.copy(alloc)?;
    match tree.make_dir(&work)? {
        Made::New => Ok(Hold { project: held }),
        Made::Exists => Err(ClaimFault::Unfinished),
        Made::Misplaced => Err(ClaimFault::Vanished(work)),
    }
}

/// Releases a claim: removes `.install` with all that is in it. `Vanished(path)`: an entry in it changed under way; over a tree
/// that tells, in which `.install` is a folder, that never comes, nor does `Unfinished`. Whatever happens, the project and its surroundings stay.
pub fn release<T: Tree>(alloc: Global, tree: &mut T, hold: Hold) -> Result<(), ClaimFault>
    ensures writes_none { WritesNone (T.meaning tree.old) (T.meaning tree.new) (is_device_fault result) }
    ensures removes { Removes (work_path hold.project) (T.meaning tree.old) (T.meaning tree.new) }
    ensures steady { Steady hold.project (T.meaning tree.old) (T.meaning tree.new) }
    ensures gone { OnOk result (OfTold (T.meaning tree.new) (λ t. map.get t (work_path hold.project) ≡ None)) }
    ensures never_vanished { OfTold (T.meaning tree.old) (λ t. map.get t (work_path hold.project) ≡ Some entries.Folder → is_lost result ≡ false) }
{
    let work = hold.project.child(alloc, b".install")?;
    remove_folder(alloc, tree, &work)?;
    Ok(())
}
