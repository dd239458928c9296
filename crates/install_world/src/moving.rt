//! One part of a job, moved to its target.

ghost use Rattle.std.specs.Prelude.{◌≡◌, ◌≢◌, ◌⊎◌, ℕ, List, true, false, IfOk, None, is_err};
ghost use Rattle.tree_dev.specs.Trees.{entry_at};
ghost use Rattle.tree_dev.specs.Changes.{has_place, is_file};
ghost use Rattle.tree_dev.specs.declared.change.Change.TheVariants as changes;
ghost use Rattle.std.specs.FinMap as map;
ghost use Rattle.tree_dev.specs.Device.{OfTold};
ghost use Rattle.tree_dev.specs.Disk.{reading};
ghost use Rattle.tree_dev.specs.Steady.{EachImage, IsWhole, Through};
ghost use Rattle.tree_dev.specs.declared.did.Did.TheVariants as dids;
ghost use Rattle.tree_dev.specs.declared.entry.Kind.TheVariants as kinds;
ghost use Rattle.install_world.specs.InFlight.{IsPart, IsPartDone, IsThere, staged_path, target_path};
ghost use Rattle.install_world.specs.Finishing.{FinishesAlike, Stands};
ghost use Rattle.install_world.specs.Moving.{Way, IsOnWay, ArePlaces, ChangesPlaces, HasFolders, HasRoom};
ghost use Rattle.install_world.specs.Removals.{WritesNone};
ghost use Rattle.install_world.specs.declared.journal.Journal.{Journal as Journals};
ghost use Rattle.install_world.specs.declared.target.Target.{Target as Targets};

use path_name::Path;
use tree_dev::{Did, Failed, Kind, Tree};

/// Where a part of a job stands in the tree that holds its project.
#[derive(Debug, Drop)]
pub struct PartPlaces {
    /// Where the part goes.
    pub target: Path,
    /// Where it stands staged, `.install/new/K`.
    pub staged: Path,
    /// Where what stands at the target goes, `.install/old/K`.
    pub kept: Path,
}

/// Takes away what stands at the target of a part that is to be gone. Misplaced: it can't go where it is kept.
fn take_away<T: Tree>(tree: &mut T, places: &PartPlaces) -> Result<Did, Failed>
    ensures writes_none { WritesNone (T.meaning tree.old) (T.meaning tree.new) (is_err result) }
    ensures moves { ChangesPlaces places.now (reading (T.meaning tree.old).disks.now) (reading (T.meaning tree.new).disks.now) }
    ensures through { OfTold (T.meaning tree.old) (λ t. IsWhole (T.meaning tree.old).disks.now → (way : Way) (number : ℕ) (target : Targets)
        → ArePlaces way.project number target places.now → IsPart way.journal.targets number target → target.gone ≡ true
        → EachImage (T.meaning tree.old) (IsOnWay way) → Through (T.meaning tree.old) (T.meaning tree.new) (IsOnWay way)) }
    ensures done { IfOk result (λ did. did ≡ dids.Done → OfTold (T.meaning tree.old) (λ t. (project : List (List ℕ)) (number : ℕ) (target : Targets)
        → ArePlaces project number target places.now → map.get (reading (T.meaning tree.new).disks.now) (target_path project target) ≡ None)) }
    ensures alike { OfTold (T.meaning tree.old) (λ t. (project : List (List ℕ)) (journal : Journals) (number : ℕ) (target : Targets)
        → ArePlaces project number target places.now → IsPart journal.targets number target → target.gone ≡ true → Stands project journal t
        → FinishesAlike project journal t (reading (T.meaning tree.new).disks.now)) }
    ensures fits { IfOk result (λ did. OfTold (T.meaning tree.old) (λ t. (project : List (List ℕ)) (number : ℕ) (target : Targets)
        → ArePlaces project number target places.now → HasFolders project number target t
        → target.gone ≡ true → HasRoom true places.now t → did ≡ dids.Done)) }
{
    match tree.stat(&places.target)? {
        Kind::Absent => Ok(Did::Done),
        _ => tree.rename(&places.target, &places.kept),
    }
}

/// Whether what is staged can be put over an entry: nothing is there, or a file is to replace a file.
fn is_free_for(kind: Kind, staged_is_file: bool) -> bool
    ensures free { result ≡ true → (kind ≡ kinds.Absent) ⊎ ((kind ≡ kinds.File) × (staged_is_file ≡ true)) }
    ensures taken { result ≡ false → kind ≢ kinds.Absent }
    ensures other { result ≡ false → kind ≡ kinds.File → staged_is_file ≡ false }
{
    match kind {
        Kind::Absent => true,
        Kind::File => staged_is_file,
        _ => false,
    }
}

/// Takes away what stands at the target of a part that is staged, but for a file that a file is to replace.
fn make_way<T: Tree>(tree: &mut T, places: &PartPlaces, staged_is_file: bool) -> Result<Did, Failed>
    ensures writes_none { WritesNone (T.meaning tree.old) (T.meaning tree.new) (is_err result) }
    ensures moves { ChangesPlaces places.now (reading (T.meaning tree.old).disks.now) (reading (T.meaning tree.new).disks.now) }
    ensures through { OfTold (T.meaning tree.old) (λ t. IsWhole (T.meaning tree.old).disks.now → (way : Way) (number : ℕ) (target : Targets)
        → ArePlaces way.project number target places.now → IsPart way.journal.targets number target → IsThere t places.now.staged
        → EachImage (T.meaning tree.old) (IsOnWay way) → Through (T.meaning tree.old) (T.meaning tree.new) (IsOnWay way)) }
    ensures alike { OfTold (T.meaning tree.old) (λ t. (project : List (List ℕ)) (journal : Journals) (number : ℕ) (target : Targets)
        → ArePlaces project number target places.now → IsPart journal.targets number target → IsThere t places.now.staged → Stands project journal t
        → FinishesAlike project journal t (reading (T.meaning tree.new).disks.now)) }
    ensures fits { IfOk result (λ did. OfTold (T.meaning tree.old) (λ t. (project : List (List ℕ)) (number : ℕ) (target : Targets)
        → ArePlaces project number target places.now → HasFolders project number target t
        → target.gone ≡ false → IsThere t places.now.staged → staged_is_file ≡ is_file (entry_at t places.now.staged) → HasRoom false places.now t
        → (did ≡ dids.Done) × OfTold (T.meaning tree.new) (λ u. has_place u (changes.Renamed places.now.staged places.now.target) ≡ true))) }
{
    let kind = tree.stat(&places.target)?;
    let free = is_free_for(kind, staged_is_file);
    if free {
        return Ok(Did::Done);
    }
    tree.rename(&places.target, &places.kept)
}

/// Puts what is staged at its target.
fn put<T: Tree>(tree: &mut T, places: &PartPlaces, staged_is_file: bool) -> Result<Did, Failed>
    ensures writes_none { WritesNone (T.meaning tree.old) (T.meaning tree.new) (is_err result) }
    ensures moves { ChangesPlaces places.now (reading (T.meaning tree.old).disks.now) (reading (T.meaning tree.new).disks.now) }
    ensures through { OfTold (T.meaning tree.old) (λ t. IsWhole (T.meaning tree.old).disks.now → (way : Way) (number : ℕ) (target : Targets)
        → ArePlaces way.project number target places.now → IsPart way.journal.targets number target → target.gone ≡ false → IsThere t places.now.staged
        → EachImage (T.meaning tree.old) (IsOnWay way) → Through (T.meaning tree.old) (T.meaning tree.new) (IsOnWay way)) }
    ensures done { IfOk result (λ did. did ≡ dids.Done → OfTold (T.meaning tree.old) (λ t. (project : List (List ℕ)) (number : ℕ) (target : Targets)
        → ArePlaces project number target places.now → map.get (reading (T.meaning tree.new).disks.now) (staged_path project number) ≡ None)) }
    ensures alike { OfTold (T.meaning tree.old) (λ t. (project : List (List ℕ)) (journal : Journals) (number : ℕ) (target : Targets)
        → ArePlaces project number target places.now → IsPart journal.targets number target → target.gone ≡ false → IsThere t places.now.staged → Stands project journal t
        → FinishesAlike project journal t (reading (T.meaning tree.new).disks.now)) }
    ensures fits { IfOk result (λ did. OfTold (T.meaning tree.old) (λ t. (project : List (List ℕ)) (number : ℕ) (target : Targets)
        → ArePlaces project number target places.now → HasFolders project number target t
        → target.gone ≡ false → IsThere t places.now.staged → staged_is_file ≡ is_file (entry_at t places.now.staged) → HasRoom false places.now t → did ≡ dids.Done)) }
{
    match make_way(tree, places, staged_is_file)? {
        Did::Misplaced => Ok(Did::Misplaced),
        Did::Done => tree.rename(&places.staged, &places.target),
    }
}

/// Moves a part: what stands at its target is taken away, unless a file is to replace a file, and what is staged is put
/// there. A part whose target is to be gone is taken away alone, and one of which nothing is staged is left as it is. At
/// most four calls. Misplaced: the tree has no place for a move, and the moves behind it are not made.
pub fn move_part<T: Tree>(tree: &mut T, places: &PartPlaces, gone: bool) -> Result<Did, Failed>
    // No file is written. The count of faults has not fallen, and rose where the device failed.
    ensures writes_none { WritesNone (T.meaning tree.old) (T.meaning tree.new) (is_err result) }
    // Only at and below the three places does the tree change.
    ensures moves { ChangesPlaces places.now (reading (T.meaning tree.old).disks.now) (reading (T.meaning tree.new).disks.now) }
    // Whatever a crash may leave on the way stays in flight, by the same journal.
    ensures through { OfTold (T.meaning tree.old) (λ t. IsWhole (T.meaning tree.old).disks.now → (way : Way) (number : ℕ) (target : Targets)
        → ArePlaces way.project number target places.now → IsPart way.journal.targets number target → target.gone ≡ gone
        → EachImage (T.meaning tree.old) (IsOnWay way) → Through (T.meaning tree.old) (T.meaning tree.new) (IsOnWay way)) }
    // After Done the part is done.
    ensures done { IfOk result (λ did. did ≡ dids.Done → OfTold (T.meaning tree.old) (λ t. (project : List (List ℕ)) (number : ℕ) (target : Targets)
        → ArePlaces project number target places.now → IsPartDone gone project number target (reading (T.meaning tree.new).disks.now))) }
    // What finishing the journal makes of the tree stays, whether it is in flight or not.
    ensures alike { OfTold (T.meaning tree.old) (λ t. (project : List (List ℕ)) (journal : Journals) (number : ℕ) (target : Targets)
        → ArePlaces project number target places.now → IsPart journal.targets number target → target.gone ≡ gone → Stands project journal t
        → FinishesAlike project journal t (reading (T.meaning tree.new).disks.now)) }
    // Over a tree that tells it is Done where the folders that it needs are there, and nothing is where it takes something.
    ensures fits { IfOk result (λ did. OfTold (T.meaning tree.old) (λ t. (project : List (List ℕ)) (number : ℕ) (target : Targets)
        → ArePlaces project number target places.now → HasFolders project number target t
        → target.gone ≡ gone → HasRoom gone places.now t → did ≡ dids.Done)) }
{
    if gone {
        return take_away(tree, places);
    }
    match tree.stat(&places.staged)? {
        Kind::Absent => Ok(Did::Done), // it was moved before
        Kind::File => put(tree, places, true),
        _ => put(tree, places, false),
    }
}
