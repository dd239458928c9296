//! A job that was committed, done to its end: its parts, and then its journal.

ghost use Rattle.std.specs.Prelude.{◌≡◌, ◌≢◌, List, ℕ, true, false, Some, Err, IfOk, OnOk, is_err};
ghost use Rattle.std.specs.FinMap as map;
ghost use Rattle.tree_dev.specs.Trees.{entry_at};
ghost use Rattle.tree_dev.specs.Changes.{is_file, is_leaf};
ghost use Rattle.tree_dev.specs.declared.entry.Entry.TheVariants as entries;
ghost use Rattle.tree_dev.specs.Device.{OfTold};
ghost use Rattle.tree_dev.specs.declared.did.Did.TheVariants as dids;
ghost use Rattle.tree_dev.specs.Disk.{reading};
ghost use Rattle.tree_dev.specs.Steady.{EachImage, IsWhole, Through};
ghost use Rattle.tree_dev.specs.Projects.{journal_path, work_path};
ghost use Rattle.install_world.specs.Blocked.{IsBlocked, IsFirstBlocked};
ghost use Rattle.install_world.specs.Finishing.{IsWithout, KeepsFinished, Stands, StopsAt};
ghost use Rattle.install_world.specs.InFlight.{AreAllDone, HasJournal, IsInFlight, IsPart, finished_by};
ghost use Rattle.install_world.specs.Moving.{IsOnWay, Way};
ghost use Rattle.install_world.specs.PartFaults.{is_device_fault, is_unfit, is_vanished};
ghost use Rattle.install_world.specs.declared.part_fault.PartFault.TheVariants as faults;
ghost use Rattle.install_world.specs.declared.target.Target.{Target as Targets};
ghost use Rattle.install_world.specs.Recovery.{IsEnding, IsNewProject, IsRecovered};
ghost use Rattle.install_world.specs.Removals.{OnlyRemoved, WritesNone};

use crate::parts::{finish_parts, make_folder};
use crate::{Journal, PartFault};
use path_name::Path;
use std::alloc::Global;
use tree_dev::{Did, Failed, Tree};

/// Takes the journal away once its parts are done, with a barrier before it and one behind it. Misplaced: no file is there.
pub fn remove_journal<T: Tree>(tree: &mut T, journal: &Path) -> Result<Did, Failed>
    ensures writes_none { WritesNone (T.meaning tree.old) (T.meaning tree.new) (is_err result) }
    ensures through { OfTold (T.meaning tree.old) (λ t. IsWhole (T.meaning tree.old).disks.now → (way : Way) → journal.now ≡ journal_path way.project
        → AreAllDone way.project way.journal.targets t → EachImage (T.meaning tree.old) (IsOnWay way)
        → Through (T.meaning tree.old) (T.meaning tree.new) (IsInFlight way.project way.surroundings way.old way.new)) }
    ensures settled { IfOk result (λ did. did ≡ dids.Done → OfTold (T.meaning tree.old) (λ t. (way : Way) → journal.now ≡ journal_path way.project
        → AreAllDone way.project way.journal.targets t → IsOnWay way t → EachImage (T.meaning tree.new) (IsNewProject way))) }
    ensures fits { IfOk result (λ did. OfTold (T.meaning tree.old) (λ t. (way : Way) → journal.now ≡ journal_path way.project
        → HasJournal way.project t way.journal → did ≡ dids.Done)) }
    ensures left { IfOk result (λ did. did ≡ dids.Done → OfTold (T.meaning tree.old) (λ t. EachImage (T.meaning tree.new) (IsWithout journal.now t))) }
    ensures others { IfOk result (λ did. did ≡ dids.Done → OfTold (T.meaning tree.old) (λ t. OfTold (T.meaning tree.new) (λ u. (path : List (List ℕ))
        → path ≢ journal.now → map.get u path ≡ map.get t path))) }
    ensures placed { IfOk result (λ did. OfTold (T.meaning tree.old) (λ t. is_file (entry_at t journal.now) ≡ true → did ≡ dids.Done)) }
    ensures removes { OnlyRemoved journal.now (reading (T.meaning tree.old).disks.now) (reading (T.meaning tree.new).disks.now) }
    ensures ends { OfTold (T.meaning tree.old) (λ t. IsWhole (T.meaning tree.old).disks.now → (way : Way) → journal.now ≡ journal_path way.project
        → AreAllDone way.project way.journal.targets t → EachImage (T.meaning tree.old) (IsOnWay way) → Through (T.meaning tree.old) (T.meaning tree.new) (IsEnding way)) }
{
    tree.barrier()?;
    match tree.remove_file(journal)? {
        Did::Done => {
            tree.barrier()?;
            Ok(Did::Done)
        }
        Did::Misplaced => Ok(Did::Misplaced),
    }
}

/// The same; `Vanished`: no file is there.
fn end_journal<T: Tree>(alloc: Global, tree: &mut T, journal: &Path) -> Result<(), PartFault>
    ensures writes_none { WritesNone (T.meaning tree.old) (T.meaning tree.new) (is_device_fault result) }
    ensures through { OfTold (T.meaning tree.old) (λ t. IsWhole (T.meaning tree.old).disks.now → (way : Way) → journal.now ≡ journal_path way.project
        → AreAllDone way.project way.journal.targets t → EachImage (T.meaning tree.old) (IsOnWay way)
        → Through (T.meaning tree.old) (T.meaning tree.new) (IsInFlight way.project way.surroundings way.old way.new)) }
    ensures settled { OnOk result (OfTold (T.meaning tree.old) (λ t. (way : Way) → journal.now ≡ journal_path way.project
        → AreAllDone way.project way.journal.targets t → IsOnWay way t → EachImage (T.meaning tree.new) (IsNewProject way))) }
    ensures others { OnOk result (OfTold (T.meaning tree.old) (λ t. OfTold (T.meaning tree.new) (λ u. (path : List (List ℕ)) → path ≢ journal.now
        → map.get u path ≡ map.get t path))) }
    ensures left { OnOk result (OfTold (T.meaning tree.old) (λ t. EachImage (T.meaning tree.new) (IsWithout journal.now t))) }
    ensures fits { OfTold (T.meaning tree.old) (λ t. (way : Way) → journal.now ≡ journal_path way.project → HasJournal way.project t way.journal
        → is_unfit result ≡ false) }
    ensures not_other { (path : List (List ℕ)) → result ≡ Err (faults.OtherEntry path) → ⊥ }
    ensures never_vanished { OfTold (T.meaning tree.old) (λ t. is_file (entry_at t journal.now) ≡ true → is_vanished result ≡ false) }
    ensures removes { OnlyRemoved journal.now (reading (T.meaning tree.old).disks.now) (reading (T.meaning tree.new).disks.now) }
    ensures ends { OfTold (T.meaning tree.old) (λ t. IsWhole (T.meaning tree.old).disks.now → (way : Way) → journal.now ≡ journal_path way.project
        → AreAllDone way.project way.journal.targets t → EachImage (T.meaning tree.old) (IsOnWay way) → Through (T.meaning tree.old) (T.meaning tree.new) (IsEnding way)) }
{
    match remove_journal(tree, journal)? {
        Did::Done => Ok(()),
        Did::Misplaced => Err(PartFault::Vanished(journal.copy(alloc)?)),
    }
}

/// Finishes the parts of a journal that stands, and takes it away.
pub(crate) fn finish_journal<T: Tree>(
    alloc: Global,
    tree: &mut T,
    project: &Path,
    at: &Path,
    journal: &Journal,
) -> Result<(), PartFault>
    ensures writes_none { WritesNone (T.meaning tree.old) (T.meaning tree.new) (is_device_fault result) }
    ensures through { OfTold (T.meaning tree.old) (λ t. IsWhole (T.meaning tree.old).disks.now → (way : Way)
        → way.project ≡ project.now → way.journal ≡ journal.now → at.now ≡ journal_path project.now → EachImage (T.meaning tree.old) (IsOnWay way)
        → Through (T.meaning tree.old) (T.meaning tree.new) (IsInFlight way.project way.surroundings way.old way.new)) }
    ensures settled { OnOk result (OfTold (T.meaning tree.old) (λ t. IsWhole (T.meaning tree.old).disks.now → (way : Way)
        → way.project ≡ project.now → way.journal ≡ journal.now → at.now ≡ journal_path project.now → EachImage (T.meaning tree.old) (IsOnWay way)
        → EachImage (T.meaning tree.new) (IsNewProject way))) }
    ensures finished { OnOk result (OfTold (T.meaning tree.old) (λ t. at.now ≡ journal_path project.now → Stands project.now journal.now t
        → EachImage (T.meaning tree.new) (IsRecovered project.now (finished_by project.now journal.now.targets t)))) }
    ensures work { OnOk result (OfTold (T.meaning tree.old) (λ t. at.now ≡ journal_path project.now → Stands project.now journal.now t
        → OfTold (T.meaning tree.new) (λ u. map.get u (work_path project.now) ≡ Some entries.Folder))) }
    ensures fits { OfTold (T.meaning tree.old) (λ t. IsWhole (T.meaning tree.old).disks.now → (way : Way)
        → way.project ≡ project.now → way.journal ≡ journal.now → at.now ≡ journal_path project.now → EachImage (T.meaning tree.old) (IsOnWay way)
        → is_unfit result ≡ false) }
    ensures cause { (path : List (List ℕ)) → result ≡ Err (faults.OtherEntry path) → OfTold (T.meaning tree.new) (λ t. is_leaf (entry_at t path) ≡ true) }
    ensures never_vanished { OfTold (T.meaning tree.old) (λ t. at.now ≡ journal_path project.now → Stands project.now journal.now t → is_vanished result ≡ false) }
    ensures again { OfTold (T.meaning tree.old) (λ t. at.now ≡ journal_path project.now → Stands project.now journal.now t
        → KeepsFinished project.now t (reading (T.meaning tree.new).disks.now)) }
    ensures stops { (path : List (List ℕ)) → result ≡ Err (faults.OtherEntry path) → OfTold (T.meaning tree.old) (λ t. Stands project.now journal.now t
        → (number : ℕ) × StopsAt project.now journal.now number t (reading (T.meaning tree.new).disks.now)) }
    ensures ends { OfTold (T.meaning tree.old) (λ t. IsWhole (T.meaning tree.old).disks.now → (way : Way)
        → way.project ≡ project.now → way.journal ≡ journal.now → at.now ≡ journal_path project.now → EachImage (T.meaning tree.old) (IsOnWay way)
        → Through (T.meaning tree.old) (T.meaning tree.new) (IsEnding way)) }
    ensures blocked { (path : List (List ℕ)) → result ≡ Err (faults.OtherEntry path) → OfTold (T.meaning tree.old) (λ t. Stands project.now journal.now t
        → IsFirstBlocked project.now journal.now.targets t path) }
    ensures free { OnOk result (OfTold (T.meaning tree.old) (λ t. Stands project.now journal.now t
        → (number : ℕ) (target : Targets) → IsPart journal.now.targets number target → (path : List (List ℕ)) → IsBlocked project.now number target t path → ⊥)) }
{
    let work = project.child(alloc, b".install")?;
    let old = work.child(alloc, b"old")?;
    make_folder(alloc, tree, &old)?;
    finish_parts(alloc, tree, project, journal.targets.as_slice())?;
    end_journal(alloc, tree, at)
}
