//! Recovery: an install that a crash or a fault cut off is finished, or taken away.

ghost use Rattle.std.specs.Prelude.{◌≡◌, ◌<◌, ◌^◌, ◌⊎◌, List, ℕ, true, false, IfOk, OnOk, Err, None, Some, MatchOption, length};
ghost use Rattle.std.specs.FinMap as map;
ghost use Rattle.tree_dev.specs.Trees.{FileTree, entry_at};
ghost use Rattle.tree_dev.specs.Changes.{is_leaf, is_root};
ghost use Rattle.tree_dev.specs.Device.{OfTold, OnlyRead};
ghost use Rattle.tree_dev.specs.Disk.{reading};
ghost use Rattle.tree_dev.specs.Steady.{EachImage, Through};
ghost use Rattle.tree_dev.specs.Projects.{journal_path, work_path};
ghost use Rattle.tree_dev.specs.declared.entry.Entry.TheVariants as entries;
ghost use Rattle.tree_dev.specs.declared.limits.LimitKind.{LimitKind as Limits};
ghost use Rattle.tree_dev.specs.declared.limits.LimitKind.TheVariants as limits;
ghost use Rattle.install_world.specs.AtOnce.{IsDueAtOnce, IsNoFile, IsStopped, IsUnreadable, NothingStops, RefusesAtOnce};
ghost use Rattle.install_world.specs.Blocked.{IsBlocked};
ghost use Rattle.install_world.specs.Finishing.{KeepsFinished, StopsAt};
ghost use Rattle.install_world.specs.InFlight.{Files, HasFiles, HasJournal, IsFinishedProject, IsInFlight, IsPart, IsThere, NoJournal};
ghost use Rattle.install_world.specs.JournalText.{IsBadJournal, Says};
ghost use Rattle.install_world.specs.declared.journal.Journal.{Journal as Journals};
ghost use Rattle.install_world.specs.declared.target.Target.{Target as Targets};
ghost use Rattle.install_world.specs.Removals.{OnlyRemoved, WritesNone};
ghost use Rattle.install_world.specs.declared.recovery_fault.RecoverFault.{RecoverFault as Faults};
ghost use Rattle.install_world.specs.declared.recovery_fault.RecoverFault.TheVariants as faults;
ghost use Rattle.install_world.specs.declared.recovery_fault.Recovered.TheVariants as did;
ghost use Rattle.install_world.specs.Recovery.{CanBeFinished, CanRecover, HasBadJournal, IsLong, IsOtherEntry, IsReadable, IsRecovered, ended_by, is_device_fault, is_refused, is_vanished, recovered_in};

use crate::ending::finish_journal;
use crate::{RecoverFault, Recovered, read_journal, remove_folder};
use path_name::{Path, Text};
use std::alloc::Global;
use tree_dev::{FILE_BYTES, Kind, LimitKind, ReadAnswer, Tree};

/// The text of the file at a path; None where nothing is there.
fn read_text<T: Tree>(alloc: Global, tree: &mut T, at: &Path) -> Result<Option<Text>, RecoverFault>
    ensures only_read { OnlyRead (T.meaning tree.old) (T.meaning tree.new) (is_device_fault result) }
    ensures text { IfOk result (λ text. OfTold (T.meaning tree.old) (λ t. MatchOption text (map.get t at.now ≡ None)
        (λ text. (map.get t at.now ≡ Some (entries.File text)) × (length text < 2 ^ 64)))) }
    ensures not_bad { (place : ℕ) → result ≡ Err (faults.BadJournal place) → ⊥ }
    ensures fits { OfTold (T.meaning tree.old) (λ t. is_root at.now ≡ false → IsReadable at.now t → is_refused result ≡ false) }
    ensures other { (path : List (List ℕ)) → result ≡ Err (faults.OtherEntry path) → (path ≡ at.now)
        × OfTold (T.meaning tree.new) (λ t. is_root path ≡ false → (is_leaf (entry_at t path) ≡ true) ⊎ (map.get t path ≡ Some entries.Folder)) }
    ensures limit { (limit : Limits) → result ≡ Err (faults.Limit limit) → (limit ≡ limits.FileBytes at.now) × (OnlyRead (T.meaning tree.old) (T.meaning tree.new) false
        × OfTold (T.meaning tree.old) (λ t. is_root at.now ≡ false → IsLong at.now t)) }
    ensures never_vanished { is_vanished result ≡ false }
    ensures readable { OnOk result (OfTold (T.meaning tree.old) (λ t. is_root at.now ≡ false → IsReadable at.now t)) }
    ensures at_once { OfTold (T.meaning tree.old) (λ t. is_root at.now ≡ false → (fault : Faults) → IsUnreadable at.now t fault
        → RefusesAtOnce fault (T.meaning tree.old) (T.meaning tree.new) result) }
    ensures unread { (path : List (List ℕ)) → result ≡ Err (faults.OtherEntry path) → (path ≡ at.now)
        × OfTold (T.meaning tree.old) (λ t. is_root at.now ≡ false → IsNoFile at.now t) }
{
    match tree.read(alloc, at, FILE_BYTES)? {
        ReadAnswer::Bytes(text) => Ok(Some(text)),
        ReadAnswer::Absent => Ok(None),
        ReadAnswer::NotFile => Err(RecoverFault::OtherEntry(at.copy(alloc)?)),
        ReadAnswer::TooLong => Err(RecoverFault::Limit(LimitKind::FileBytes(at.copy(alloc)?))),
    }
}

/// Takes an install away that was not committed. A barrier comes first, so that no crash brings a journal back.
fn take_install_away<T: Tree>(
    alloc: Global,
    tree: &mut T,
    work: &Path,
) -> Result<Recovered, RecoverFault>
    ensures writes_none { WritesNone (T.meaning tree.old) (T.meaning tree.new) (is_device_fault result) }
    ensures through { OfTold (T.meaning tree.old) (λ t. (project : List (List ℕ)) (surroundings : FileTree) (old new : Files) → work.now ≡ work_path project
        → NoJournal project t → EachImage (T.meaning tree.old) (IsInFlight project surroundings old new)
        → Through (T.meaning tree.old) (T.meaning tree.new) (IsInFlight project surroundings old new)) }
    ensures found { IfOk result (λ found. found ≡ did.Removed) }
    ensures not_bad { (place : ℕ) → result ≡ Err (faults.BadJournal place) → ⊥ }
    ensures left { OnOk result (OfTold (T.meaning tree.old) (λ t. EachImage (T.meaning tree.new) (OnlyRemoved work.now t))) }
    ensures gone { OnOk result (OfTold (T.meaning tree.new) (λ t. map.get t work.now ≡ None)) }
    ensures fits { OfTold (T.meaning tree.old) (λ t. map.get t work.now ≡ Some entries.Folder → is_refused result ≡ false) }
    ensures not_other { (path : List (List ℕ)) → result ≡ Err (faults.OtherEntry path) → ⊥ }
    ensures not_limit { (limit : Limits) → result ≡ Err (faults.Limit limit) → ⊥ }
    ensures never_vanished { OfTold (T.meaning tree.old) (λ t. map.get t work.now ≡ Some entries.Folder → is_vanished result ≡ false) }
    ensures again { OfTold (T.meaning tree.old) (λ t. (project : List (List ℕ)) → work.now ≡ work_path project → NoJournal project t
        → KeepsFinished project t (reading (T.meaning tree.new).disks.now)) }
    ensures ends { OfTold (T.meaning tree.old) (λ t. (project : List (List ℕ)) (files : Files) → work.now ≡ work_path project → NoJournal project t
        → EachImage (T.meaning tree.old) (λ left. IsFinishedProject project left files)
        → Through (T.meaning tree.old) (T.meaning tree.new) (λ left. IsFinishedProject project left files)) }
{
    tree.barrier()?;
    remove_folder(alloc, tree, work)?;
    Ok(Recovered::Removed)
}

/// Finishes the install whose journal has this text.
fn finish_text<T: Tree>(
    alloc: Global,
    tree: &mut T,
    project: &Path,
    work: &Path,
    at: &Path,
    text: &[u8],
) -> Result<Recovered, RecoverFault>
    ensures writes_none { WritesNone (T.meaning tree.old) (T.meaning tree.new) (is_device_fault result) }
    ensures through { OfTold (T.meaning tree.old) (λ t. (surroundings : FileTree) (old new : Files) → work.now ≡ work_path project.now → at.now ≡ journal_path project.now
        → map.get t at.now ≡ Some (entries.File text.now) → length text.now < 2 ^ 64 → EachImage (T.meaning tree.old) (IsInFlight project.now surroundings old new)
        → Through (T.meaning tree.old) (T.meaning tree.new) (IsInFlight project.now surroundings old new)) }
    ensures finished { OnOk result (OfTold (T.meaning tree.old) (λ t. (files : Files) → work.now ≡ work_path project.now → at.now ≡ journal_path project.now
        → map.get t at.now ≡ Some (entries.File text.now) → length text.now < 2 ^ 64 → IsFinishedProject project.now t files
        → EachImage (T.meaning tree.new) (IsRecovered project.now files))) }
    ensures found { IfOk result (λ found. found ≡ did.Finished) }
    ensures gone { OnOk result (OfTold (T.meaning tree.new) (λ t. map.get t work.now ≡ None)) }
    ensures bad { (place : ℕ) → result ≡ Err (faults.BadJournal place) → IsBadJournal text.now place × OnlyRead (T.meaning tree.old) (T.meaning tree.new) false }
    ensures fits { OfTold (T.meaning tree.old) (λ t. (surroundings : FileTree) (old new : Files) → work.now ≡ work_path project.now → at.now ≡ journal_path project.now
        → map.get t at.now ≡ Some (entries.File text.now) → length text.now < 2 ^ 64 → EachImage (T.meaning tree.old) (IsInFlight project.now surroundings old new)
        → is_refused result ≡ false) }
    ensures other { (path : List (List ℕ)) → result ≡ Err (faults.OtherEntry path) → OfTold (T.meaning tree.new) (λ t. is_leaf (entry_at t path) ≡ true) }
    ensures not_limit { (limit : Limits) → result ≡ Err (faults.Limit limit) → ⊥ }
    ensures never_vanished { OfTold (T.meaning tree.old) (λ t. work.now ≡ work_path project.now → at.now ≡ journal_path project.now
        → map.get t at.now ≡ Some (entries.File text.now) → length text.now < 2 ^ 64 → is_vanished result ≡ false) }
    ensures again { OfTold (T.meaning tree.old) (λ t. work.now ≡ work_path project.now → at.now ≡ journal_path project.now
        → map.get t at.now ≡ Some (entries.File text.now) → length text.now < 2 ^ 64 → KeepsFinished project.now t (reading (T.meaning tree.new).disks.now)) }
    ensures says { OnOk result ((journal : Journals) × Says text.now journal) }
    ensures stops { (path : List (List ℕ)) → result ≡ Err (faults.OtherEntry path) → OfTold (T.meaning tree.old) (λ t. (journal : Journals) → at.now ≡ journal_path project.now
        → map.get t at.now ≡ Some (entries.File text.now) → length text.now < 2 ^ 64 → Says text.now journal
        → (number : ℕ) × StopsAt project.now journal number t (reading (T.meaning tree.new).disks.now)) }
    ensures ends { OfTold (T.meaning tree.old) (λ t. (surroundings : FileTree) (old new files : Files) → work.now ≡ work_path project.now → at.now ≡ journal_path project.now
        → map.get t at.now ≡ Some (entries.File text.now) → length text.now < 2 ^ 64 → EachImage (T.meaning tree.old) (IsInFlight project.now surroundings old new)
        → EachImage (T.meaning tree.old) (λ left. IsFinishedProject project.now left files)
        → Through (T.meaning tree.old) (T.meaning tree.new) (λ left. IsFinishedProject project.now left files)) }
    ensures at_once { (place : ℕ) → IsBadJournal text.now place → RefusesAtOnce (faults.BadJournal place) (T.meaning tree.old) (T.meaning tree.new) result }
    ensures blocked { (path : List (List ℕ)) → result ≡ Err (faults.OtherEntry path) → OfTold (T.meaning tree.old) (λ t. at.now ≡ journal_path project.now
        → map.get t at.now ≡ Some (entries.File text.now) → length text.now < 2 ^ 64 → IsStopped project.now t path) }
    ensures free { OnOk result (OfTold (T.meaning tree.old) (λ t. (journal : Journals) → at.now ≡ journal_path project.now
        → map.get t at.now ≡ Some (entries.File text.now) → length text.now < 2 ^ 64 → Says text.now journal
        → (number : ℕ) (target : Targets) → IsPart journal.targets number target → (path : List (List ℕ)) → IsBlocked project.now number target t path → ⊥)) }
{
    let journal = read_journal(alloc, text)?;
    tree.barrier()?;
    finish_journal(alloc, tree, project, at, &journal)?;
    remove_folder(alloc, tree, work)?;
    Ok(Recovered::Finished)
}

/// Finishes or takes away the install whose `.install` is there.
fn finish_claimed<T: Tree>(
    alloc: Global,
    tree: &mut T,
    project: &Path,
    work: &Path,
) -> Result<Recovered, RecoverFault>
    ensures writes_none { WritesNone (T.meaning tree.old) (T.meaning tree.new) (is_device_fault result) }
    ensures through { OfTold (T.meaning tree.old) (λ t. (surroundings : FileTree) (old new : Files) → work.now ≡ work_path project.now
        → EachImage (T.meaning tree.old) (IsInFlight project.now surroundings old new)
        → Through (T.meaning tree.old) (T.meaning tree.new) (IsInFlight project.now surroundings old new)) }
    ensures found { IfOk result (λ found. OfTold (T.meaning tree.old) (λ t. work.now ≡ work_path project.now → found ≡ ended_by (map.get t (journal_path project.now)))) }
    ensures finished { OnOk result (OfTold (T.meaning tree.old) (λ t. (files : Files) → work.now ≡ work_path project.now → IsFinishedProject project.now t files
        → EachImage (T.meaning tree.new) (IsRecovered project.now files))) }
    ensures gone { OnOk result (OfTold (T.meaning tree.new) (λ t. map.get t work.now ≡ None)) }
    ensures bad { (place : ℕ) → result ≡ Err (faults.BadJournal place) → OnlyRead (T.meaning tree.old) (T.meaning tree.new) false
        × OfTold (T.meaning tree.old) (λ t. work.now ≡ work_path project.now → HasBadJournal project.now t place) }
    ensures fits { OfTold (T.meaning tree.old) (λ t. (surroundings : FileTree) (old new : Files) → work.now ≡ work_path project.now → map.get t work.now ≡ Some entries.Folder
        → EachImage (T.meaning tree.old) (IsInFlight project.now surroundings old new) → CanRecover project.now t → is_refused result ≡ false) }
    ensures other { (path : List (List ℕ)) → result ≡ Err (faults.OtherEntry path) → OfTold (T.meaning tree.new) (λ t. work.now ≡ work_path project.now
        → IsOtherEntry project.now path t) }
    ensures limit { (limit : Limits) → result ≡ Err (faults.Limit limit) → work.now ≡ work_path project.now
        → (limit ≡ limits.FileBytes (journal_path project.now)) × (OnlyRead (T.meaning tree.old) (T.meaning tree.new) false
        × OfTold (T.meaning tree.old) (IsLong (journal_path project.now))) }
    ensures never_vanished { OfTold (T.meaning tree.old) (λ t. work.now ≡ work_path project.now → map.get t work.now ≡ Some entries.Folder → is_vanished result ≡ false) }
    ensures again { OfTold (T.meaning tree.old) (λ t. work.now ≡ work_path project.now → KeepsFinished project.now t (reading (T.meaning tree.new).disks.now)) }
    ensures only { OnOk result (OfTold (T.meaning tree.old) (λ t. work.now ≡ work_path project.now → map.get t work.now ≡ Some entries.Folder → CanBeFinished project.now t)) }
    ensures stops { (path : List (List ℕ)) → result ≡ Err (faults.OtherEntry path) → OfTold (T.meaning tree.old) (λ t. (journal : Journals) → work.now ≡ work_path project.now
        → HasJournal project.now t journal → (number : ℕ) × StopsAt project.now journal number t (reading (T.meaning tree.new).disks.now)) }
    ensures ends { OfTold (T.meaning tree.old) (λ t. (surroundings : FileTree) (old new files : Files) → work.now ≡ work_path project.now
        → EachImage (T.meaning tree.old) (IsInFlight project.now surroundings old new) → EachImage (T.meaning tree.old) (λ left. IsFinishedProject project.now left files)
        → Through (T.meaning tree.old) (T.meaning tree.new) (λ left. IsFinishedProject project.now left files)) }
    ensures at_once { OfTold (T.meaning tree.old) (λ t. work.now ≡ work_path project.now → map.get t work.now ≡ Some entries.Folder
        → (fault : Faults) → IsDueAtOnce project.now t fault → RefusesAtOnce fault (T.meaning tree.old) (T.meaning tree.new) result) }
    ensures blocked { (path : List (List ℕ)) → result ≡ Err (faults.OtherEntry path) → OfTold (T.meaning tree.old) (λ t. work.now ≡ work_path project.now
        → IsStopped project.now t path) }
    ensures free { OnOk result (OfTold (T.meaning tree.old) (λ t. work.now ≡ work_path project.now → NothingStops project.now t)) }
{
    let at = work.child(alloc, b"journal")?;
    match read_text(alloc, tree, &at)? {
        None => take_install_away(alloc, tree, work),
        Some(text) => finish_text(alloc, tree, project, work, &at, text.as_slice()),
    }
}

/// Finishes an install that was committed and cut off, or takes one away that was not committed. It can be stopped and run
/// again at any moment. `NothingToDo`: there is no `.install`. `Removed`: no journal stood in it. `Finished`: the journal's job
/// is done: what is staged stands at its targets, nothing is at those that are to be gone, and all else of the project is as it
/// was, whether the install was in flight or not. `BadJournal(at)`: `.install/journal` is none, and nothing was changed.
/// `OtherEntry(path)`: `.install` is no folder, the journal no file, or a folder that a part needs is there as another kind; the
/// parts before are done then. `Limit`: the journal passes `FILE_BYTES`, and nothing was changed. `Vanished(path)`: what earlier
/// calls showed is no longer there; over a tree that tells it never comes. `DeviceFault` comes only where the device's count of
/// faults rose. Whatever it answers, run again it gives the same project. It is run only while no install runs. Over a tree
/// that tells and is in flight, where `.install` is a folder or absent and the journal no longer than `FILE_BYTES`, it refuses
/// only for a device that fails or for want of memory.
pub fn finish_install<T: Tree>(
    alloc: Global,
    tree: &mut T,
    project: &Path,
) -> Result<Recovered, RecoverFault>
    ensures writes_none { WritesNone (T.meaning tree.old) (T.meaning tree.new) (is_device_fault result) }
    ensures through { OfTold (T.meaning tree.old) (λ t. (surroundings : FileTree) (old new : Files)
        → EachImage (T.meaning tree.old) (IsInFlight project.now surroundings old new)
        → Through (T.meaning tree.old) (T.meaning tree.new) (IsInFlight project.now surroundings old new)) }
    ensures found { IfOk result (λ found. OfTold (T.meaning tree.old) (λ t. found ≡ recovered_in project.now t)) }
    ensures finished { OnOk result (OfTold (T.meaning tree.old) (λ t. (files : Files) → IsFinishedProject project.now t files
        → HasFiles project.now (reading (T.meaning tree.new).disks.now) files)) }
    ensures settled { OnOk result (OfTold (T.meaning tree.old) (λ t. IsThere t (work_path project.now) → (files : Files) → IsFinishedProject project.now t files
        → EachImage (T.meaning tree.new) (IsRecovered project.now files))) }
    ensures gone { OnOk result (OfTold (T.meaning tree.new) (λ t. map.get t (work_path project.now) ≡ None)) }
    ensures bad { (place : ℕ) → result ≡ Err (faults.BadJournal place) → OnlyRead (T.meaning tree.old) (T.meaning tree.new) false
        × OfTold (T.meaning tree.old) (λ t. HasBadJournal project.now t place) }
    ensures fits { OfTold (T.meaning tree.old) (λ t. (surroundings : FileTree) (old new : Files)
        → EachImage (T.meaning tree.old) (IsInFlight project.now surroundings old new) → CanRecover project.now t → is_refused result ≡ false) }
    ensures other { (path : List (List ℕ)) → result ≡ Err (faults.OtherEntry path) → OfTold (T.meaning tree.new) (IsOtherEntry project.now path) }
    ensures limit { (limit : Limits) → result ≡ Err (faults.Limit limit) → (limit ≡ limits.FileBytes (journal_path project.now))
        × (OnlyRead (T.meaning tree.old) (T.meaning tree.new) false × OfTold (T.meaning tree.old) (IsLong (journal_path project.now))) }
    ensures never_vanished { OfTold (T.meaning tree.old) (λ t. is_vanished result ≡ false) }
    ensures again { OfTold (T.meaning tree.old) (λ t. KeepsFinished project.now t (reading (T.meaning tree.new).disks.now)) }
    ensures only { OnOk result (OfTold (T.meaning tree.old) (CanBeFinished project.now)) }
    ensures stops { (path : List (List ℕ)) → result ≡ Err (faults.OtherEntry path) → OfTold (T.meaning tree.old) (λ t. (journal : Journals)
        → HasJournal project.now t journal → (number : ℕ) × StopsAt project.now journal number t (reading (T.meaning tree.new).disks.now)) }
    ensures ends { OfTold (T.meaning tree.old) (λ t. (surroundings : FileTree) (old new files : Files)
        → EachImage (T.meaning tree.old) (IsInFlight project.now surroundings old new) → EachImage (T.meaning tree.old) (λ left. IsFinishedProject project.now left files)
        → Through (T.meaning tree.old) (T.meaning tree.new) (λ left. IsFinishedProject project.now left files)) }
    ensures at_once { OfTold (T.meaning tree.old) (λ t. (fault : Faults) → IsDueAtOnce project.now t fault
        → RefusesAtOnce fault (T.meaning tree.old) (T.meaning tree.new) result) }
    ensures blocked { (path : List (List ℕ)) → result ≡ Err (faults.OtherEntry path) → OfTold (T.meaning tree.old) (λ t. IsStopped project.now t path) }
    ensures free { OnOk result (OfTold (T.meaning tree.old) (NothingStops project.now)) }
{
    let work = project.child(alloc, b".install")?;
    match tree.stat(&work)? {
        Kind::Absent => Ok(Recovered::NothingToDo),
        Kind::Folder => finish_claimed(alloc, tree, project, &work),
        _ => Err(RecoverFault::OtherEntry(work)),
    }
}
