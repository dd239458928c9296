//! One entry made, or one folder listed.

ghost use Rattle.std.specs.Prelude.{◌≡◌, ◌≤◌, ◌<◌, ◌-◌, length, ℕ, List, true, false, Ok, IfOk, IfSome, OnOk, if◌then◌else◌};
ghost use Rattle.tree_dev.specs.Trees.{IsListing};
ghost use Rattle.tree_dev.specs.Device.{OnlyRead, OfTold, next};
ghost use Rattle.tree_dev.specs.Steady.{IsStaged};
ghost use Rattle.stage_job.specs.Copied.{Lists, folder_alone};
ghost use Rattle.stage_job.specs.Faults.{Answers, is_device_fault};
ghost use Rattle.stage_job.specs.Jobs.{file_alone};
ghost use Rattle.stage_job.specs.Staged.{IsFree, KeepsTelling, Puts, Staging};

use crate::fault::StageFault;
use path_name::{Items, Name, Path};
use std::alloc::Global;
use tree_dev::{Did, Entries, LimitKind, ListAnswer, Made, Tree};

/// Refuses to go on where an entry vanished.
pub fn vanished(alloc: Global, at: &Path) -> Result<(), StageFault>
    ensures refused { OnOk result ⊥ }
    ensures no_device { is_device_fault result ≡ false }
{
    Err(StageFault::Vanished(at.copy(alloc)?))
}

/// Makes a folder where nothing is. `Vanished`: something is there, or no folder above it; never over a tree that tells.
pub fn make_folder<T: Tree>(alloc: Global, tree: &mut T, at: &Path) -> Result<(), StageFault>
    requires free { OfTold (T.meaning tree.old) (IsFree at.now) }
    ensures staging { (project : List (List ℕ)) → IsStaged project at.now → Staging project (T.meaning tree.old) (T.meaning tree.new) (is_device_fault result) }
    ensures tells { KeepsTelling (T.meaning tree.old) (T.meaning tree.new) }
    ensures answer { OfTold (T.meaning tree.old) (λ t. (left : ℕ) → Answers (Ok left) left result) }
    ensures made { OnOk result (OfTold (T.meaning tree.old) (λ t. OfTold (T.meaning tree.new) (Puts at.now folder_alone t))) }
    ensures writes { (T.meaning tree.new).writes ≡ (T.meaning tree.old).writes }
{
    match tree.make_dir(at)? {
        Made::New => Ok(()),
        Made::Exists => vanished(alloc, at),
        Made::Misplaced => vanished(alloc, at),
    }
}

/// Makes a file where nothing is. `Vanished`: as with a folder.
pub fn put_file<T: Tree>(
    alloc: Global,
    tree: &mut T,
    at: &Path,
    bytes: &[u8],
) -> Result<(), StageFault>
    requires free { OfTold (T.meaning tree.old) (IsFree at.now) }
    ensures staging { (project : List (List ℕ)) → IsStaged project at.now → Staging project (T.meaning tree.old) (T.meaning tree.new) (is_device_fault result) }
    ensures tells { KeepsTelling (T.meaning tree.old) (T.meaning tree.new) }
    ensures answer { OfTold (T.meaning tree.old) (λ t. (left : ℕ) → Answers (Ok left) left result) }
    ensures made { OnOk result (OfTold (T.meaning tree.old) (λ t. OfTold (T.meaning tree.new) (Puts at.now (file_alone bytes.now) t))) }
    ensures writes { (T.meaning tree.new).writes ≡ next (T.meaning tree.old).writes }
{
    match tree.write(at, bytes)? {
        Did::Done => Ok(()),
        Did::Misplaced => vanished(alloc, at),
    }
}

/// Takes as many from the entries that may still be listed as there are names. False: there are fewer, and nothing changed.
fn take_entries(left: &mut Entries, names: &[Name]) -> bool
    ensures fits { result ≡ true → length names.now ≤ left.old.left }
    ensures full { result ≡ false → left.old.left < length names.now }
    ensures taken { left.new.left ≡ (if result then left.old.left - length names.now else left.old.left) }
{
    let before = left.left;
    match u32::try_from(names.len()) {
        Ok(count) if count <= before => {
            left.left = before - count;
            true
        }
        _ => false,
    }
}

/// The names of a folder, in byte order; they are taken off the entries that may still be listed. None: nothing is there.
/// `OtherEntry`: something else than a folder is. `Limit`: it has more names than may still be listed, and none is taken off.
pub fn list_names<T: Tree>(
    alloc: Global,
    tree: &mut T,
    at: &Path,
    left: &mut Entries,
) -> Result<Option<Items<Name>>, StageFault>
    ensures only_read { OnlyRead (T.meaning tree.old) (T.meaning tree.new) (is_device_fault result) }
    ensures listing { IfOk result (λ found. IfSome found IsListing) }
    ensures answer { OfTold (T.meaning tree.old) (λ t. Lists t at.now left.old.left left.new.left result) }
    ensures entries { left.new.left ≤ left.old.left }
{
    match tree.list(alloc, at, left.left)? {
        ListAnswer::Names(names) => {
            if take_entries(left, names.as_slice()) {
                Ok(Some(names))
            } else {
                Err(StageFault::Limit(LimitKind::Entries))
            }
        }
        ListAnswer::TooMany => Err(StageFault::Limit(LimitKind::Entries)),
        ListAnswer::Absent => Ok(None),
        ListAnswer::NotFolder => Err(StageFault::OtherEntry(at.copy(alloc)?)),
    }
}
