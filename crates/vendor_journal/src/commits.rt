//! The commit of an install: its journal, and then its parts.

ghost use Rattle.std.specs.Prelude.{◌≡◌, ℕ, List, false, None, Some, IfOk, OnErr, OnOk, is_err};
ghost use Rattle.std.specs.FinMap as map;
ghost use Rattle.tree_dev.specs.Trees.{FileTree, IsTree};
ghost use Rattle.tree_dev.specs.Device.{MaySettle, OfTold, Rose, Settles, next};
ghost use Rattle.tree_dev.specs.Disk.{reading};
ghost use Rattle.tree_dev.specs.Changes.{changed};
ghost use Rattle.tree_dev.specs.Steady.{EachImage, IsWhole, Steady, Through};
ghost use Rattle.tree_dev.specs.Projects.{work_path};
ghost use Rattle.tree_dev.specs.declared.change.Change.TheVariants as changes;
ghost use Rattle.tree_dev.specs.declared.did.Did.TheVariants as dids;
ghost use Rattle.tree_dev.specs.declared.entry.Entry.TheVariants as entries;
ghost use Rattle.install_world.specs.InFlight.{AreAllDone, Files, IsInFlight, IsPart, IsPartDone, draft_path};
ghost use Rattle.install_world.specs.Moving.{ChangesPlaces, IsOnWay, Way};
ghost use Rattle.install_world.specs.Recovery.{IsNewProject};
ghost use Rattle.install_world.specs.Removals.{WritesNone};
ghost use Rattle.install_world.specs.declared.target.Target.{Target as Targets};
ghost use Rattle.vendor_journal.specs.Committing.{Calls, HasRoomFrom, IsReady};
ghost use Rattle.vendor_journal.specs.Faults.{is_commit_fault, is_vanished};
ghost use Rattle.vendor_journal.specs.Prepared.{ArePrepared, IsPrepared, IsPreparedPart};

use crate::{CommitFault, Hold, Prepared, PreparedPart};
use install_world::{move_part, remove_journal};
use tree_dev::{Did, Failed, Tree};

/// Makes safe what was done to the journal, so that no crash brings back what was before.
fn make_safe<T: Tree>(tree: &mut T) -> Result<(), Failed>
    ensures moments { MaySettle (T.meaning tree.old) (T.meaning tree.new) }
    ensures done { OnOk result (OfTold (T.meaning tree.old) (λ _. Settles (T.meaning tree.old) (T.meaning tree.new))) }
    ensures cause { OnErr result (Rose (T.meaning tree.old).faults (T.meaning tree.new).faults) }
    ensures counts { (T.meaning tree.new).writes ≡ (T.meaning tree.old).writes }
{
    tree.barrier()
}

/// Writes the journal's text beside its place, and makes it safe. Misplaced: it has no place.
fn write_draft<T: Tree>(tree: &mut T, prepared: &Prepared) -> Result<Did, Failed>
    ensures calls { Calls (T.meaning tree.old) (T.meaning tree.new) (is_err result) }
    ensures steady { (project : List (List ℕ)) → prepared.now.draft ≡ draft_path project → Steady project (T.meaning tree.old) (T.meaning tree.new) }
    ensures written { IfOk result (λ did. did ≡ dids.Done → OfTold (T.meaning tree.old) (λ t. IsWhole (T.meaning tree.new).disks.now
        × EachImage (T.meaning tree.new) (λ left. left ≡ changed t (changes.Written prepared.now.draft prepared.now.text)))) }
    ensures fits { IfOk result (λ did. OfTold (T.meaning tree.old) (λ t. (way : Way) (puts : ℕ → Files) → IsReady way puts prepared.now t → did ≡ dids.Done)) }
    ensures writes { (T.meaning tree.new).writes ≡ next (T.meaning tree.old).writes }
{
    match tree.write(&prepared.draft, prepared.text.as_slice())? {
        Did::Done => {
            make_safe(tree)?;
            Ok(Did::Done)
        }
        Did::Misplaced => Ok(Did::Misplaced),
    }
}

/// Gives the journal's text its name, and makes that safe. Misplaced: it has no place.
fn name_draft<T: Tree>(tree: &mut T, prepared: &Prepared) -> Result<Did, Failed>
    ensures calls { Calls (T.meaning tree.old) (T.meaning tree.new) (is_err result) }
    ensures through { (way : Way) (puts : ℕ → Files) (t : FileTree) → IsReady way puts prepared.now t → IsWhole (T.meaning tree.old).disks.now
        → EachImage (T.meaning tree.old) (λ left. left ≡ changed t (changes.Written prepared.now.draft prepared.now.text))
        → EachImage (T.meaning tree.old) (IsInFlight way.project way.surroundings way.old way.new)
        → Through (T.meaning tree.old) (T.meaning tree.new) (IsInFlight way.project way.surroundings way.old way.new) }
    ensures named { IfOk result (λ did. did ≡ dids.Done → OfTold (T.meaning tree.old) (λ _. (way : Way) (puts : ℕ → Files) (t : FileTree) → IsReady way puts prepared.now t
        → EachImage (T.meaning tree.old) (λ left. left ≡ changed t (changes.Written prepared.now.draft prepared.now.text))
        → IsWhole (T.meaning tree.new).disks.now × EachImage (T.meaning tree.new) (IsOnWay way))) }
    ensures room { IfOk result (λ did. did ≡ dids.Done → OfTold (T.meaning tree.old) (λ _. (way : Way) (puts : ℕ → Files) (t : FileTree) → IsReady way puts prepared.now t
        → EachImage (T.meaning tree.old) (λ left. left ≡ changed t (changes.Written prepared.now.draft prepared.now.text))
        → HasRoomFrom way.project 0 (reading (T.meaning tree.new).disks.now))) }
    ensures fits { IfOk result (λ did. OfTold (T.meaning tree.old) (λ _. (way : Way) (puts : ℕ → Files) (t : FileTree) → IsTree t → IsReady way puts prepared.now t
        → EachImage (T.meaning tree.old) (λ left. left ≡ changed t (changes.Written prepared.now.draft prepared.now.text)) → did ≡ dids.Done)) }
    ensures writes { (T.meaning tree.new).writes ≡ (T.meaning tree.old).writes }
{
    match tree.rename(&prepared.draft, &prepared.at)? {
        Did::Done => {
            make_safe(tree)?;
            Ok(Did::Done)
        }
        Did::Misplaced => Ok(Did::Misplaced),
    }
}

/// Places the journal: no crash leaves it with torn bytes, and none loses it once this is done. Misplaced: it has no place.
fn place_journal<T: Tree>(tree: &mut T, prepared: &Prepared) -> Result<Did, Failed>
    ensures calls { Calls (T.meaning tree.old) (T.meaning tree.new) (is_err result) }
    ensures through { OfTold (T.meaning tree.old) (λ t. (way : Way) (puts : ℕ → Files) → IsReady way puts prepared.now t
        → EachImage (T.meaning tree.old) (λ left. left ≡ t)
        → Through (T.meaning tree.old) (T.meaning tree.new) (IsInFlight way.project way.surroundings way.old way.new)) }
    ensures placed { IfOk result (λ did. did ≡ dids.Done → OfTold (T.meaning tree.old) (λ t. (way : Way) (puts : ℕ → Files) → IsReady way puts prepared.now t
        → IsWhole (T.meaning tree.new).disks.now × EachImage (T.meaning tree.new) (IsOnWay way))) }
    ensures room { IfOk result (λ did. did ≡ dids.Done → OfTold (T.meaning tree.old) (λ t. (way : Way) (puts : ℕ → Files) → IsReady way puts prepared.now t
        → HasRoomFrom way.project 0 (reading (T.meaning tree.new).disks.now))) }
    ensures fits { IfOk result (λ did. OfTold (T.meaning tree.old) (λ t. (way : Way) (puts : ℕ → Files) → IsReady way puts prepared.now t → did ≡ dids.Done)) }
    ensures writes { (T.meaning tree.new).writes ≡ next (T.meaning tree.old).writes }
{
    match write_draft(tree, prepared)? {
        Did::Done => name_draft(tree, prepared),
        Did::Misplaced => Ok(Did::Misplaced),
    }
}

/// A part's number as the place of a fault.
fn place_of(number: usize) -> u32 {
    if number < u32::MAX as usize {
        number as u32
    } else {
        u32::MAX
    }
}

/// Moves a part. `Vanished`: it has no place.
fn move_prepared<T: Tree>(
    tree: &mut T,
    number: usize,
    part: &PreparedPart,
) -> Result<(), CommitFault>
    ensures writes_none { WritesNone (T.meaning tree.old) (T.meaning tree.new) (is_commit_fault result) }
    ensures moves { ChangesPlaces part.now.places (reading (T.meaning tree.old).disks.now) (reading (T.meaning tree.new).disks.now) }
    ensures through { OfTold (T.meaning tree.old) (λ t. IsWhole (T.meaning tree.old).disks.now → (way : Way) (number : ℕ) (target : Targets)
        → IsPreparedPart way.project number target part.now → IsPart way.journal.targets number target
        → EachImage (T.meaning tree.old) (IsOnWay way) → Through (T.meaning tree.old) (T.meaning tree.new) (IsOnWay way)) }
    ensures done { OnOk result (OfTold (T.meaning tree.old) (λ t. (project : List (List ℕ)) (number : ℕ) (target : Targets)
        → IsPreparedPart project number target part.now → IsPartDone target.gone project number target (reading (T.meaning tree.new).disks.now))) }
    ensures never_vanished { OfTold (T.meaning tree.old) (λ t. (way : Way) (number : ℕ) (target : Targets) → IsPreparedPart way.project number target part.now
        → IsPart way.journal.targets number target → IsOnWay way t → map.get t part.now.places.kept ≡ None → is_vanished result ≡ false) }
{
    match move_part(tree, &part.places, part.gone)? {
        Did::Done => Ok(()),
        Did::Misplaced => Err(CommitFault::Vanished(place_of(number))),
    }
}

/// Moves all parts, in their order.
fn move_parts<T: Tree>(tree: &mut T, parts: &[PreparedPart]) -> Result<(), CommitFault>
    ensures writes_none { WritesNone (T.meaning tree.old) (T.meaning tree.new) (is_commit_fault result) }
    ensures through { OfTold (T.meaning tree.old) (λ t. IsWhole (T.meaning tree.old).disks.now → (way : Way)
        → ArePrepared way.project way.journal.targets parts.now
        → EachImage (T.meaning tree.old) (IsOnWay way) → Through (T.meaning tree.old) (T.meaning tree.new) (IsOnWay way)) }
    ensures done { OnOk result (OfTold (T.meaning tree.old) (λ t. IsWhole (T.meaning tree.old).disks.now → (way : Way)
        → ArePrepared way.project way.journal.targets parts.now
        → EachImage (T.meaning tree.old) (IsOnWay way) → AreAllDone way.project way.journal.targets (reading (T.meaning tree.new).disks.now))) }
    ensures never_vanished { OfTold (T.meaning tree.old) (λ t. IsWhole (T.meaning tree.old).disks.now → (way : Way)
        → ArePrepared way.project way.journal.targets parts.now
        → EachImage (T.meaning tree.old) (IsOnWay way) → HasRoomFrom way.project 0 (reading (T.meaning tree.old).disks.now) → is_vanished result ≡ false) }
{
    'parts: for (number, part) in parts.iter().enumerate() {
        move_prepared(tree, number, part)?;
    }
    Ok(())
}

/// Moves the parts by the journal that stands, and takes it away.
fn finish<T: Tree>(tree: &mut T, prepared: &Prepared) -> Result<(), CommitFault>
    ensures writes_none { WritesNone (T.meaning tree.old) (T.meaning tree.new) (is_commit_fault result) }
    ensures through { OfTold (T.meaning tree.old) (λ t. IsWhole (T.meaning tree.old).disks.now → (way : Way) → IsPrepared way.project way.journal prepared.now
        → EachImage (T.meaning tree.old) (IsOnWay way)
        → Through (T.meaning tree.old) (T.meaning tree.new) (IsInFlight way.project way.surroundings way.old way.new)) }
    ensures finished { OnOk result (OfTold (T.meaning tree.old) (λ t. IsWhole (T.meaning tree.old).disks.now → (way : Way) → IsPrepared way.project way.journal prepared.now
        → EachImage (T.meaning tree.old) (IsOnWay way) → EachImage (T.meaning tree.new) (IsNewProject way))) }
    ensures work { OnOk result (OfTold (T.meaning tree.old) (λ t. IsWhole (T.meaning tree.old).disks.now → (way : Way) → IsPrepared way.project way.journal prepared.now
        → EachImage (T.meaning tree.old) (IsOnWay way) → OfTold (T.meaning tree.new) (λ u. map.get u (work_path way.project) ≡ Some entries.Folder))) }
    ensures never_vanished { OfTold (T.meaning tree.old) (λ t. IsWhole (T.meaning tree.old).disks.now → (way : Way) → IsPrepared way.project way.journal prepared.now
        → EachImage (T.meaning tree.old) (IsOnWay way) → HasRoomFrom way.project 0 (reading (T.meaning tree.old).disks.now) → is_vanished result ≡ false) }
{
    move_parts(tree, prepared.parts.as_slice())?;
    match remove_journal(tree, &prepared.at)? {
        Did::Done => Ok(()),
        Did::Misplaced => Err(CommitFault::Vanished(place_of(prepared.parts.len()))),
    }
}

/// Commits an install that is staged whole and made ready, and moves its parts: the journal is written and made safe, each part
/// is moved to its target, and the journal is taken away. Whatever a crash leaves at any moment has the old project, or the
/// new one, or is on the way from one to the other with a journal, by which recovery finishes it; after Ok every crash leaves
/// the new project. It takes no memory. `DeviceFault` comes only where the device's count of faults rose. `Vanished(place)`: a
/// call had no place for its change; over a tree that tells that never comes. `.install` is left for `release`. It makes one call
/// of `write`, that of the journal, whatever it answers.
pub fn commit<T: Tree>(tree: &mut T, _hold: &Hold, prepared: &Prepared) -> Result<(), CommitFault>
    ensures calls { Calls (T.meaning tree.old) (T.meaning tree.new) (is_commit_fault result) }
    ensures through { OfTold (T.meaning tree.old) (λ t. (way : Way) (puts : ℕ → Files) → IsReady way puts prepared.now t
        → EachImage (T.meaning tree.old) (λ left. left ≡ t)
        → Through (T.meaning tree.old) (T.meaning tree.new) (IsInFlight way.project way.surroundings way.old way.new)) }
    ensures committed { OnOk result (OfTold (T.meaning tree.old) (λ t. (way : Way) (puts : ℕ → Files) → IsReady way puts prepared.now t
        → EachImage (T.meaning tree.new) (IsNewProject way))) }
    // What a release then takes away is a folder.
    ensures work { OnOk result (OfTold (T.meaning tree.old) (λ t. (way : Way) (puts : ℕ → Files) → IsReady way puts prepared.now t
        → OfTold (T.meaning tree.new) (λ u. map.get u (work_path way.project) ≡ Some entries.Folder))) }
    // Over a tree that tells it is only a device that fails that keeps the commit from its end.
    ensures never_vanished { OfTold (T.meaning tree.old) (λ t. (way : Way) (puts : ℕ → Files) → IsReady way puts prepared.now t
        → EachImage (T.meaning tree.old) (λ left. left ≡ t) → is_vanished result ≡ false) }
    // The journal is written by one call, and nothing else is.
    ensures writes { (T.meaning tree.new).writes ≡ next (T.meaning tree.old).writes }
{
    match place_journal(tree, prepared)? {
        Did::Done => finish(tree, prepared),
        Did::Misplaced => Err(CommitFault::Vanished(place_of(prepared.parts.len()))),
    }
}
