//! The trait of trees.

ghost use Rattle.std.specs.Prelude.{◌≡◌, ◌≢◌, ◌-◌, ◌^◌, IfOk, OnOk, OnErr, IsErrOf, is_err, Some};

use crate::{Did, Failed, Kind, ListAnswer, Made, ReadAnswer, TreeFault};
use path_name::Path;
use std::alloc::Global;

/// A tree of entries on a device. Each call speaks of one entry. A call may fail, and then the device's
/// count of faults rose, or stood at its last value, 2^64 - 1.
///
/// What a tree means to a contract is one record, `meaning`: the tree that it tells, where it tells one,
/// the count of faults, the count of calls of `write`, and what a crash may leave, now and at each earlier
/// moment. No call changes whether a tree tells. What a call answers is exact over a tree that tells.
///
/// After Done and New the one change of the call was made, every other entry is as before, and the change
/// is the last pending one. Misplaced, Exists and the calls that read change nothing. After Failed the
/// tree is as before or as after the change, and a file that was to be written may hold any bytes. Want
/// of memory changes nothing.
pub trait Tree {
    ghost use Rattle.tree_dev.specs.declared.fault.TreeFault.TheVariants as faults;
    ghost use Rattle.tree_dev.specs.declared.did.Did.TheVariants as dids;
    ghost use Rattle.tree_dev.specs.declared.did.Made.TheVariants as mades;
    ghost use Rattle.tree_dev.specs.declared.entry.ListAnswer.TheVariants as listings;
    ghost use Rattle.tree_dev.specs.declared.change.Change.TheVariants as changes;
    ghost use Rattle.tree_dev.specs.Trees.{FileTree, IsTree, ListsNames, kind_at, list_at, read_at};
    ghost use Rattle.tree_dev.specs.Changes.{did, made_folder};
    ghost use Rattle.tree_dev.specs.Disk.{IsOnDisk};
    ghost use Rattle.tree_dev.specs.Device.{Meaning, OnlyRead, OfTold, Rose, Stays, Adds, MayAdd, Settles, MaySettle, is_failed, next};

    ghost meaning: { Self → Meaning };

    /// What kind of entry stands at a path.
    fn stat(&mut self, at: &Path) -> Result<Kind, Failed>
        ensures kind { IfOk result (λ kind. OfTold (meaning self.old) (λ t. kind ≡ kind_at t at.now)) }
        ensures only_read { OnlyRead (meaning self.old) (meaning self.new) (is_err result) }
        ensures cause { OnErr result (Rose (meaning self.old).faults (meaning self.new).faults) };

    /// The names of the entries of the folder at a path, where there are at most `most`, in byte order.
    /// Each is a segment of a path and comes once. TooMany never comes where `most` is the last u32.
    fn list(&mut self, alloc: Global, at: &Path, most: u32) -> Result<ListAnswer, TreeFault>
        ensures answer { IfOk result (λ answer. OfTold (meaning self.old) (λ t. answer ≡ list_at t at.now most)) }
        ensures names { IfOk result ListsNames }
        ensures all { IfOk result (λ answer. most ≡ 2 ^ 32 - 1 → answer ≢ listings.TooMany) }
        ensures only_read { OnlyRead (meaning self.old) (meaning self.new) (is_failed result) };

    /// The bytes of the file at a path, where there are at most `most`.
    fn read(&mut self, alloc: Global, at: &Path, most: u64) -> Result<ReadAnswer, TreeFault>
        ensures answer { IfOk result (λ answer. OfTold (meaning self.old) (λ t. answer ≡ read_at t at.now most)) }
        ensures only_read { OnlyRead (meaning self.old) (meaning self.new) (is_failed result) }
        ensures cause { IsErrOf result faults.Failed → Rose (meaning self.old).faults (meaning self.new).faults };

    /// Makes a file of these bytes at a path, or replaces the one there. Misplaced: the path above is no
    /// folder, or an entry is there that is no file. It alone raises the count of writes, by one up to
    /// the last u64, whatever it answers.
    fn write(&mut self, at: &Path, bytes: &[u8]) -> Result<Did, Failed>
        ensures answer { IfOk result (λ answer. OfTold (meaning self.old) (λ t. answer ≡ did t (changes.Written at.now bytes.now))) }
        ensures done { IfOk result (λ answer. answer ≡ dids.Done → OfTold (meaning self.old) (λ _. Adds (meaning self.old) (meaning self.new) (changes.Written at.now bytes.now))) }
        ensures misplaced { IfOk result (λ answer. answer ≡ dids.Misplaced → Stays (meaning self.old) (meaning self.new)) }
        ensures moments { MayAdd (meaning self.old) (meaning self.new) (changes.Written at.now bytes.now) }
        ensures cause { OnErr result (Rose (meaning self.old).faults (meaning self.new).faults) }
        ensures counts { (meaning self.new).writes ≡ next (meaning self.old).writes };

    /// Makes an empty folder at a path. Exists: an entry is there. Misplaced: nothing is there, and the
    /// path above is no folder.
    fn make_dir(&mut self, at: &Path) -> Result<Made, Failed>
        ensures answer { IfOk result (λ answer. OfTold (meaning self.old) (λ t. answer ≡ made_folder t at.now)) }
        ensures done { IfOk result (λ answer. answer ≡ mades.New → OfTold (meaning self.old) (λ _. Adds (meaning self.old) (meaning self.new) (changes.FolderMade at.now))) }
        ensures misplaced { IfOk result (λ answer. answer ≢ mades.New → Stays (meaning self.old) (meaning self.new)) }
        ensures moments { MayAdd (meaning self.old) (meaning self.new) (changes.FolderMade at.now) }
        ensures cause { OnErr result (Rose (meaning self.old).faults (meaning self.new).faults) }
        ensures counts { (meaning self.new).writes ≡ (meaning self.old).writes };

    /// Moves what stands at and below `from` to `to`. Misplaced: nothing is at `from`, `to` is `from` or
    /// lies below it, the path above `to` is no folder, or something is at `to` and not both are files. A
    /// file at `to` is replaced in the same change.
    fn rename(&mut self, from: &Path, to: &Path) -> Result<Did, Failed>
        ensures answer { IfOk result (λ answer. OfTold (meaning self.old) (λ t. answer ≡ did t (changes.Renamed from.now to.now))) }
        ensures done { IfOk result (λ answer. answer ≡ dids.Done → OfTold (meaning self.old) (λ _. Adds (meaning self.old) (meaning self.new) (changes.Renamed from.now to.now))) }
        ensures misplaced { IfOk result (λ answer. answer ≡ dids.Misplaced → Stays (meaning self.old) (meaning self.new)) }
        ensures moments { MayAdd (meaning self.old) (meaning self.new) (changes.Renamed from.now to.now) }
        ensures cause { OnErr result (Rose (meaning self.old).faults (meaning self.new).faults) }
        ensures counts { (meaning self.new).writes ≡ (meaning self.old).writes };

    /// Takes away the file or other entry at a path; of a link itself, not what it leads to. Misplaced:
    /// nothing or a folder is there.
    fn remove_file(&mut self, at: &Path) -> Result<Did, Failed>
        ensures answer { IfOk result (λ answer. OfTold (meaning self.old) (λ t. answer ≡ did t (changes.FileRemoved at.now))) }
        ensures done { IfOk result (λ answer. answer ≡ dids.Done → OfTold (meaning self.old) (λ _. Adds (meaning self.old) (meaning self.new) (changes.FileRemoved at.now))) }
        ensures misplaced { IfOk result (λ answer. answer ≡ dids.Misplaced → Stays (meaning self.old) (meaning self.new)) }
        ensures moments { MayAdd (meaning self.old) (meaning self.new) (changes.FileRemoved at.now) }
        ensures cause { OnErr result (Rose (meaning self.old).faults (meaning self.new).faults) }
        ensures counts { (meaning self.new).writes ≡ (meaning self.old).writes };

    /// Takes away the folder at a path. Misplaced: no folder is there, it has an entry, or it is the root.
    fn remove_dir(&mut self, at: &Path) -> Result<Did, Failed>
        ensures answer { IfOk result (λ answer. OfTold (meaning self.old) (λ t. answer ≡ did t (changes.FolderRemoved at.now))) }
        ensures done { IfOk result (λ answer. answer ≡ dids.Done → OfTold (meaning self.old) (λ _. Adds (meaning self.old) (meaning self.new) (changes.FolderRemoved at.now))) }
        ensures misplaced { IfOk result (λ answer. answer ≡ dids.Misplaced → Stays (meaning self.old) (meaning self.new)) }
        ensures moments { MayAdd (meaning self.old) (meaning self.new) (changes.FolderRemoved at.now) }
        ensures cause { OnErr result (Rose (meaning self.old).faults (meaning self.new).faults) }
        ensures counts { (meaning self.new).writes ≡ (meaning self.old).writes };

    /// Makes what was changed so far safe from a crash. It changes no entry. After Failed the changes are
    /// pending as before.
    fn barrier(&mut self) -> Result<(), Failed>
        ensures done { OnOk result (OfTold (meaning self.old) (λ _. Settles (meaning self.old) (meaning self.new))) }
        ensures failed { OnErr result (Stays (meaning self.old) (meaning self.new)) }
        ensures moments { MaySettle (meaning self.old) (meaning self.new) }
        ensures cause { OnErr result (Rose (meaning self.old).faults (meaning self.new).faults) }
        ensures counts { (meaning self.new).writes ≡ (meaning self.old).writes };

    /// A tree that is told is one: every entry stands at a path below a folder, and there are fewer
    /// than 2^32.
    ghost tells_trees: { (tree : Self) (t : FileTree) → (meaning tree).told ≡ Some t → IsTree t };

    /// The tree that is told is what the pending changes make of the base, and each first part of them
    /// makes a tree.
    ghost tells_its_disk: { (tree : Self) (t : FileTree) → (meaning tree).told ≡ Some t → IsOnDisk (meaning tree).disks.now t };
}
